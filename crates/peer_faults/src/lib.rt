// The peer's faults of one message, in PEER-ORDER's order: whether its type is expected, and the first fault of one that is.
#![tactic(auto)]

ghost use Rattle.std.specs.Prelude.{◌≡◌};
ghost use Rattle.clock.specs.Clock.{no_age, verdict_number};
ghost use Rattle.peer_faults.specs.Faults.{
  expectation_of,
  number_judged,
  not_ahead,
  beyond_n,
  gap,
  wrong_echo,
  accepts,
  check_failed,
  time_check_of,
  fault_with,
  age_fault,
  fault_of,
};

use clock::{Age, Centred, Count, Verdict};
use connection::{
    Connection, INITIATOR_WAITS_FOR_2, INITIATOR_WAITS_FOR_4, OPENED, Offsets,
    RESPONDER_WAITS_FOR_1, RESPONDER_WAITS_FOR_3, RESPONDER_WAITS_FOR_5,
};
use message::{
    APPLICATION, Header, Message, OFFSET_ANSW1, OFFSET_ANSW2, OFFSET_END, OFFSET_EST, OFFSET_START,
    Tail,
};
use number::BEHIND_FROM;

// PEER-211: whether a message's type is the one awaited; if not, in set-up released.
#[derive(Clone, Copy)]
pub enum Expectation {
    Expected,
    Unexpected,
    Released,
}

// AGE-7: what the time check finds of a message: its age, and the verdict on it.
#[derive(Clone, Copy)]
pub struct TimeCheck {
    pub age: Age,
    pub verdict: Verdict,
}

// The first fault of a message.
// Stays: 01's number, 0 for none, as `fault_of` and `fault_number` (specs/Faults) have it, which lemmas of promises read.
#[derive(Clone, Copy)]
pub struct Fault {
    pub number: u16,
    // AGE-7, AGE-8: the age that is reported with it.
    pub age: Age,
}

#[tactic(auto, unfolding(crate::specs::Faults::expectation_of))]
pub fn expectation_of(phase: u8, kind: u8) -> Expectation
    ensures { result ≡ expectation_of phase kind }
{
    match (phase, kind) {
        (INITIATOR_WAITS_FOR_2, OFFSET_ANSW1)
        | (INITIATOR_WAITS_FOR_4, OFFSET_EST)
        | (RESPONDER_WAITS_FOR_1, OFFSET_START)
        | (RESPONDER_WAITS_FOR_3, OFFSET_ANSW2)
        | (RESPONDER_WAITS_FOR_5, OFFSET_END)
        | (OPENED, APPLICATION) => Expectation::Expected,
        (OPENED, _) => Expectation::Unexpected,
        _ => Expectation::Released,
    }
}

// PEER-FIRST: the first number of the peer is not judged.
#[tactic(auto, unfolding(crate::specs::Faults::number_judged))]
fn number_judged(kind: u8) -> bool
    ensures { result ≡ number_judged kind }
{
    OFFSET_ANSW1 < kind
}

// PEER-202.
#[tactic(auto, unfolding(crate::specs::Faults::not_ahead))]
fn not_ahead(kind: u8, d: u16) -> bool
    ensures { result ≡ not_ahead kind d }
{
    number_judged(kind) && (d == 0 || BEHIND_FROM <= d)
}

// PEER-203.
#[tactic(auto, unfolding(crate::specs::Faults::beyond_n))]
fn beyond_n(kind: u8, d: u16, n: u16) -> bool
    ensures { result ≡ beyond_n kind d n }
{
    number_judged(kind) && n < d
}

// PEER-204.
#[tactic(auto, unfolding(crate::specs::Faults::gap))]
fn gap(kind: u8, d: u16) -> bool
    ensures { result ≡ gap kind d }
{
    number_judged(kind) && 2 <= d
}

// PEER-208.
#[tactic(auto, unfolding(crate::specs::Faults::wrong_echo))]
fn wrong_echo(kind: u8, echo: Count, stamp: Count) -> bool
    ensures { result ≡ wrong_echo kind echo.0 stamp.0 }
{
    (OFFSET_ANSW1..=OFFSET_END).contains(&kind) && echo != stamp
}

// EST-1, EST-2, EST-3: the initiator's test of the offsets that OffsetEst carries.
#[tactic(auto, unfolding(crate::specs::Faults::accepts))]
fn accepts(own: Offsets, t: Tail, t_off: u32) -> bool
    ensures { result ≡ accepts own.min.0 own.max.0 t.min.0 t.max.0 t_off }
{
    own.max.plus(t.min).size() == 0
        && !own.max.minus(own.min).negative()
        && own.min.plus(t.max).size() <= t_off
}

// PEER-209.
#[tactic(auto, unfolding(crate::specs::Faults::check_failed))]
fn check_failed(c: Connection, kind: u8, t: Tail) -> bool
    ensures { result ≡ check_failed c kind t }
{
    match kind {
        OFFSET_EST => !accepts(c.offsets, t, c.settings.t_off),
        OFFSET_END => t.check == 0,
        _ => false,
    }
}

fn verdict_number(v: Verdict) -> u16
    ensures { result ≡ verdict_number v }
{
    match v {
        Verdict::Future => 206,
        Verdict::Late => 205,
        Verdict::Fresh => 0,
    }
}

// AGE-7: the age is computed here, once, and the verdict is on it.
fn time_check(c: Connection, now: Count, h: Header) -> TimeCheck
    ensures { result ≡ time_check_of c now h }
{
    let age = Age::of(now, h.stamp, c.settings.e, c.offsets.min);
    TimeCheck {
        age,
        verdict: age.verdict_of(c.settings.t_max),
    }
}

// AGE-8: a fault with which no age is reported.
fn without_age(number: u16) -> Fault
    ensures { result ≡ fault_with number no_age }
{
    Fault {
        number,
        age: Age::none(),
    }
}

// PEER-206, PEER-205.
#[tactic(auto, unfolding(crate::specs::Faults::age_fault))]
fn age_fault(c: Connection, now: Count, h: Header) -> Fault
    ensures { result ≡ age_fault c now h }
{
    if h.kind == APPLICATION {
        let found = time_check(c, now, h);
        Fault {
            number: verdict_number(found.verdict),
            age: found.age,
        }
    } else {
        without_age(0)
    }
}

// PEER-ORDER from 202 on, of a message that is expected.
pub fn fault_of(c: Connection, now: Count, message: Message) -> Fault
    ensures { result ≡ fault_of c now message.header message.tail }
{
    let h = message.header;
    let d = number::distance_of(h.number, c.peer.number);
    if not_ahead(h.kind, d) {
        without_age(202)
    } else if beyond_n(h.kind, d, c.settings.n) {
        without_age(203)
    } else if wrong_echo(h.kind, h.last_peer_stamp, c.wait_start) {
        without_age(208)
    } else if check_failed(c, h.kind, message.tail) {
        without_age(209)
    } else {
        let by_age = age_fault(c, now, h);
        if by_age.number == 0 && gap(h.kind, d) {
            Fault {
                number: 204,
                ..by_age
            }
        } else {
            by_age
        }
    }
}
