// The records of a trace, and the call that each makes.
#![tactic(auto)]

ghost use Rattle.std.specs.Prelude.{◌≡◌, ◌≤◌, length};
ghost use Rattle.calls.specs.Calls.{leaves};
ghost use Rattle.table.specs.Table.{leaves_at};
ghost use Rattle.trace.specs.Record.{fields_at, fields_size, size_of, record_bytes, bad_fields, record_of};
ghost use Rattle.trace.specs.Call.{given_in, call_of, made_by, made_on};

use calls::{Answer, Call, Called, Given};
use clock::Count;
use connection::{Connection, Own, Settings};

// The bytes of a record's fields: TRACE-1.
pub const FIELDS_SIZE: usize = 10;

// The most bytes behind them: TRACE-10.
pub const MOST_RECORD_BYTES: u16 = 1000;

// The most bytes of a record, with those of its fields: a window with fewer may cut it.
pub const MOST_RECORD: usize = FIELDS_SIZE + MOST_RECORD_BYTES as usize;

pub const MARK: u16 = 0x5232;

// The kinds, by their numbers: TRACE-2.
pub const BEGIN: u8 = 1;

const RECEIVE: u8 = 2;

const SEND: u8 = 3;

const TICK: u8 = 4;

const CLOSE: u8 = 5;

// The bytes of begin: TRACE-3.
const BEGIN_SIZE: usize = 26;

// TRACE-4: bytes of another size hold no role.
const NO_ROLE: u8 = 255;

// TRACE-6: the bytes of the out buffer that each call is lent.
pub const ROOM: usize = 1000;

// A record of a trace, without its bytes.
#[derive(Clone, Copy)]
pub struct Record {
    pub mark: u16,
    // Stays: any byte may stand there in a file; `record_of` says which is bad.
    pub kind: u8,
    pub slot: u8,
    pub now: Count,
    pub length: u16,
}

// What stands first in the bytes that are left of a trace.
#[derive(Clone, Copy)]
pub enum Next {
    End,
    Bad,
    Whole(Record),
}

// The fields of the record that stands first.
pub fn fields_at(s: &[u8]) -> Record
    requires { fields_size ≤ length s.now }
    ensures { result ≡ fields_at s.now }
{
    Record {
        mark: field::number_at(s, 0),
        kind: field::number_at(s, 2),
        slot: field::number_at(s, 3),
        now: Count(field::number_at(s, 4)),
        length: field::number_at(s, 8),
    }
}

// TRACE-8, TRACE-9, TRACE-10.
fn bad_fields(r: Record) -> bool
    ensures { result ≡ bad_fields r }
{
    r.mark != MARK || !(BEGIN..=CLOSE).contains(&r.kind) || MOST_RECORD_BYTES < r.length
}

// What stands first in the bytes that are left of a trace.
pub fn record_of(s: &[u8]) -> Next
    ensures { result ≡ record_of s.now }
{
    if s.is_empty() {
        return Next::End;
    }
    if s.len() < FIELDS_SIZE {
        return Next::Bad;
    }
    let r = fields_at(s);
    if bad_fields(r) || s.len() < FIELDS_SIZE + r.length as usize {
        Next::Bad
    } else {
        Next::Whole(r)
    }
}

// TRACE-3, TRACE-4: what begin's bytes give.
fn given_in(bytes: &[u8]) -> Given
    ensures { result ≡ given_in bytes.now }
{
    if bytes.len() == BEGIN_SIZE {
        Given {
            role: field::number_at(bytes, 0),
            settings: connection_row::settings_from(bytes, 1),
            own: Own {
                number: field::number_at(bytes, 20),
                period: field::number_at(bytes, 22),
            },
        }
    } else {
        let none = Connection::all_zero();
        Given {
            role: NO_ROLE,
            settings: none.settings,
            own: none.own,
        }
    }
}

// TRACE-2: the call of a kind of record.
// Stays: the kind as TRACE-2 numbers it, any byte, in this public function as in the file.
pub fn call_of(kind: u8, bytes: &[u8]) -> Call
    ensures { result ≡ call_of kind bytes.now }
{
    match kind {
        BEGIN => Call::Begin(given_in(bytes)),
        RECEIVE => Call::Receive,
        SEND => Call::Send,
        TICK => Call::Tick,
        _ => Call::Close,
    }
}

// The call of a record that stands first, on its slot's record.
pub fn made_by(c: Connection, r: Record, s: &[u8], lent: &mut [u8]) -> Called
    requires { size_of r ≤ length s.now }
    ensures { leaves result lent.new ≡ made_by c r (record_bytes s.now r) lent.old }
{
    let bytes = &s[FIELDS_SIZE..FIELDS_SIZE + r.length as usize];
    calls::make(c, call_of(r.kind, bytes), r.now, bytes, lent)
}

// The same on the table: the answer to the call of a record that stands first, made on its slot.
pub fn made_on(table: &mut [Connection], r: Record, s: &[u8], lent: &mut [u8]) -> Answer
    requires { size_of r ≤ length s.now }
    ensures { leaves_at result table.new lent.new ≡ made_on table.old r (record_bytes s.now r) lent.old }
{
    let bytes = &s[FIELDS_SIZE..FIELDS_SIZE + r.length as usize];
    table::make(
        table,
        r.slot as usize,
        call_of(r.kind, bytes),
        r.now,
        bytes,
        lent,
    )
}

#[cfg(test)]
mod tests {
    use super::*;

    // TRACE-2: a tick on a closed record is answered 102, alone and on a table of one.
    #[test]
    fn makes_a_tick(rt: HostRuntime) {
        let c = Connection::all_zero();
        let r = Record {
            mark: MARK,
            kind: TICK,
            slot: 0,
            now: Count(0),
            length: 0,
        };
        let s = [0u8; FIELDS_SIZE];
        let alone = made_by(c, r, &s, &mut [0; 4]).answer;
        let there = made_on(&mut [c], r, &s, &mut [0; 4]);
        assert!(rt;
            alone.number == 102 && there.number == 102,
            "no connection is there"
        );
    }
}
