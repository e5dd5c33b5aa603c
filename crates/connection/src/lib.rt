// A connection's record, by value: its settings and their ranges, its phases, and what changes together.
#![tactic(auto)]

ghost use Rattle.std.specs.Prelude.{◌≡◌};
ghost use Rattle.connection.specs.Connection.{
  ◌outside◌to◌,
  out_of_range,
  unsound,
  all_zero,
  configured,
  clocked,
  counted,
  heard,
  sent,
  waiting,
  with_offsets,
  begun,
};

use clock::{Count, Offset};
use message::Header;

// The phases, by their numbers: PHASE-0 to PHASE-6.
// Stays: 01 names a match on the numbers of phases (FORM-7), and a host lends records of any phase (RECORD-1).
pub const CLOSED: u8 = 0;

pub const INITIATOR_WAITS_FOR_2: u8 = 1;

pub const INITIATOR_WAITS_FOR_4: u8 = 2;

pub const RESPONDER_WAITS_FOR_1: u8 = 3;

pub const RESPONDER_WAITS_FOR_3: u8 = 4;

pub const RESPONDER_WAITS_FOR_5: u8 = 5;

pub const OPENED: u8 = 6;

// The most that a setting may be: RANGE-N, RANGE-TMAX, RANGE-TSTART, RANGE-TOFF, RANGE-LIMIT.
const MOST_N: u32 = 1000;

const MOST_TIME: u32 = 60000;

const MOST_LIMIT: u32 = 255;

#[derive(Clone, Copy)]
pub struct Settings {
    // N: the largest gap of numbers that is still delivered, and one more is not.
    pub n: u16,
    pub t_max: u32,
    // E: the extra delay.
    pub e: u32,
    pub t_start: u32,
    pub t_off: u32,
    // The error limit.
    pub limit: u8,
}

// What is our own: the next number, and the period.
#[derive(Clone, Copy)]
pub struct Own {
    pub number: u16,
    pub period: u32,
}

// What was heard last of the peer: a message's number and stamp, and own count at its arrival.
#[derive(Clone, Copy)]
pub struct Peer {
    pub number: u16,
    pub stamp: Count,
    pub arrival: Count,
}

// The offsets of set-up.
#[derive(Clone, Copy)]
pub struct Offsets {
    pub min: Offset,
    pub max: Offset,
}

#[derive(Clone, Copy)]
pub struct Connection {
    pub phase: u8,
    pub settings: Settings,
    pub own: Own,
    pub peer: Peer,
    // The now of the send that began the wait; 0 where no wait with a timer runs (WAIT-3).
    pub wait_start: Count,
    pub offsets: Offsets,
    // The error counter.
    pub errors: u8,
    // The remembered clock (KIND-5).
    pub clock: Count,
}

fn outside(x: u32, least: u32, most: u32) -> bool
    ensures { result ≡ (x outside least to most) }
{
    !(least..=most).contains(&x)
}

impl Settings {
    // CALL-104.
    #[tactic(auto, unfolding(crate::specs::Connection::out_of_range))]
    pub fn out_of_range(self) -> bool
        ensures { result ≡ out_of_range self }
    {
        outside(u32::from(self.n), 1, MOST_N)
            || outside(self.t_max, 1, MOST_TIME)
            || outside(self.e, 0, self.t_max)
            || outside(self.t_start, 1, MOST_TIME)
            || outside(self.t_off, 0, MOST_TIME)
            || outside(u32::from(self.limit), 1, MOST_LIMIT)
    }
}

impl Connection {
    // RECORD-1, of a record that is not closed.
    #[tactic(auto, unfolding(crate::specs::Connection::unsound))]
    pub fn unsound(self) -> bool
        ensures { result ≡ unsound self }
    {
        self.settings.out_of_range()
            || outside(
                u32::from(self.phase),
                u32::from(INITIATOR_WAITS_FOR_2),
                u32::from(OPENED),
            )
            || self.settings.limit <= self.errors
    }

    // RECORD-3: a released slot.
    pub fn all_zero() -> Connection
        ensures { result ≡ all_zero }
    {
        Connection {
            phase: CLOSED,
            settings: Settings {
                n: 0,
                t_max: 0,
                e: 0,
                t_start: 0,
                t_off: 0,
                limit: 0,
            },
            own: Own {
                number: 0,
                period: 0,
            },
            peer: Peer {
                number: 0,
                stamp: Count(0),
                arrival: Count(0),
            },
            wait_start: Count(0),
            offsets: Offsets {
                min: Offset(0),
                max: Offset(0),
            },
            errors: 0,
            clock: Count(0),
        }
    }

    // What begin is given for the whole of the connection.
    pub fn configured(self, settings: Settings, own: Own) -> Connection
        ensures { result ≡ configured self settings own }
    {
        Connection {
            settings,
            own,
            ..self
        }
    }

    // The record of begin, before anything was sent.
    pub fn begun(settings: Settings, own: Own, phase: u8, now: Count) -> Connection
        ensures { result ≡ begun settings own phase now }
    {
        Connection::all_zero()
            .configured(settings, own)
            .waiting(phase, Count(0))
            .clocked(now)
    }

    // KIND-5: the remembered clock.
    pub fn clocked(self, now: Count) -> Connection
        ensures { result ≡ clocked self now }
    {
        Connection { clock: now, ..self }
    }

    // ERR-1, ERR-4: the error counter.
    pub fn counted(self, errors: u8) -> Connection
        ensures { result ≡ counted self errors }
    {
        Connection { errors, ..self }
    }

    // ERR-6: what is remembered of a message.
    pub fn heard(self, h: Header, now: Count) -> Connection
        ensures { result ≡ heard self h now }
    {
        let peer = Peer {
            number: h.number,
            stamp: h.stamp,
            arrival: now,
        };
        Connection { peer, ..self }
    }

    // NUMBER-1: one message more was sent.
    pub fn sent(self) -> Connection
        ensures { result ≡ sent self }
    {
        let own = Own {
            number: number::next_of(self.own.number),
            ..self.own
        };
        Connection { own, ..self }
    }

    // WAIT-1: a phase, and the now of the send that began its wait.
    pub fn waiting(self, phase: u8, since: Count) -> Connection
        ensures { result ≡ waiting self phase since }
    {
        Connection {
            phase,
            wait_start: since,
            ..self
        }
    }

    // OFFSET-2, OFFSET-3: the offsets of set-up.
    pub fn with_offsets(self, min: Offset, max: Offset) -> Connection
        ensures { result ≡ with_offsets self min max }
    {
        Connection {
            offsets: Offsets { min, max },
            ..self
        }
    }
}
