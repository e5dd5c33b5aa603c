// What follows when the peer's message was judged, by value: what it does to a connection, and what is sent back.
#![tactic(auto)]

ghost use Rattle.std.specs.Prelude.{◌≡◌};
ghost use Rattle.what_follows.specs.Follows.{
  comes_to,
  kept,
  released,
  sending,
  malformed_of,
  min_of,
  max_of,
  reply_header,
  answered,
  start_taken,
  answ1_taken,
  answ2_taken,
  est_taken,
  end_taken,
  data_taken,
  message_taken,
  refusing,
  raised,
  open_follows_of,
  follows_of,
  judged_by,
  met_of,
  step_of,
};

use clock::{Age, Count, Offset};
use connection::{
    Connection, INITIATOR_WAITS_FOR_4, OPENED, RESPONDER_WAITS_FOR_3, RESPONDER_WAITS_FOR_5,
};
use message::{
    Header, Message, OFFSET_ANSW1, OFFSET_ANSW2, OFFSET_END, OFFSET_EST, OFFSET_START, Tail,
};
use peer_faults::{Expectation, Fault};

// What a call comes to.
#[derive(Clone, Copy)]
pub struct Outcome {
    // 0, or the number of the fault.
    pub number: u16,
    pub released: bool,
    // How many bytes of application data are delivered.
    pub delivered: usize,
    // AGE-7, AGE-8: the age by which a message was judged, 0 where none is reported.
    pub age: Age,
    // The message that is sent back.
    pub reply: Option<Message>,
    pub next: Connection,
}

// Every outcome is made here, of its parts in their order.
fn comes_to(
    number: u16,
    released: bool,
    delivered: usize,
    reply: Option<Message>,
    next: Connection,
) -> Outcome
    ensures { result ≡ comes_to number released delivered reply next }
{
    Outcome {
        number,
        released,
        delivered,
        age: Age::none(),
        reply,
        next,
    }
}

// The connection goes on.
pub fn kept(number: u16, delivered: usize, next: Connection) -> Outcome
    ensures { result ≡ kept number delivered next }
{
    comes_to(number, false, delivered, None, next)
}

// RECORD-3: the slot is released.
pub fn released(number: u16, delivered: usize) -> Outcome
    ensures { result ≡ released number delivered }
{
    comes_to(number, true, delivered, None, Connection::all_zero())
}

// A message is sent.
pub fn sending(header: Header, tail: Tail, next: Connection) -> Outcome
    ensures { result ≡ sending header tail next }
{
    comes_to(0, false, 0, Some(Message { header, tail }), next)
}

#[tactic(auto, unfolding(crate::specs::Follows::malformed_of))]
fn malformed_of(c: Connection, now: Count) -> Outcome
    ensures { result ≡ malformed_of c now }
{
    if c.phase == OPENED {
        kept(201, 0, c.clocked(now))
    } else {
        released(201, 0)
    }
}

fn reply_header(kind: u8, c: Connection, now: Count, h: Header) -> Header
    ensures { result ≡ reply_header kind c now h }
{
    Header {
        kind,
        number: c.own.number,
        stamp: now,
        last_peer_stamp: h.stamp,
        arrival: now,
    }
}

fn answered(c: Connection, now: Count, h: Header, phase: u8) -> Connection
    ensures { result ≡ answered c now h phase }
{
    c.clocked(now).heard(h, now).sent().waiting(phase, now)
}

#[tactic(auto, unfolding(crate::specs::Follows::start_taken))]
fn start_taken(c: Connection, now: Count, h: Header) -> Outcome
    ensures { result ≡ start_taken c now h }
{
    sending(
        reply_header(OFFSET_ANSW1, c, now, h),
        message::period_tail(c.own.period),
        answered(c, now, h, RESPONDER_WAITS_FOR_3),
    )
}

// OFFSET-2, OFFSET-3, OFFSET-4: our message's stamp minus its reported arrival.
fn min_of(c: Connection, h: Header) -> Offset
    ensures { result ≡ min_of c h }
{
    Offset::between(c.wait_start, h.arrival)
}

// OFFSET-2, OFFSET-3: the arrival of the peer's message minus its stamp.
fn max_of(now: Count, h: Header) -> Offset
    ensures { result ≡ max_of now h }
{
    Offset::between(now, h.stamp)
}

#[tactic(auto, unfolding(crate::specs::Follows::answ1_taken))]
fn answ1_taken(c: Connection, now: Count, h: Header) -> Outcome
    ensures { result ≡ answ1_taken c now h }
{
    sending(
        reply_header(OFFSET_ANSW2, c, now, h),
        message::empty_tail(),
        answered(c, now, h, INITIATOR_WAITS_FOR_4).with_offsets(min_of(c, h), max_of(now, h)),
    )
}

#[tactic(auto, unfolding(crate::specs::Follows::answ2_taken))]
fn answ2_taken(c: Connection, now: Count, h: Header) -> Outcome
    ensures { result ≡ answ2_taken c now h }
{
    let min = min_of(c, h);
    let max = max_of(now, h);
    sending(
        reply_header(OFFSET_EST, c, now, h),
        message::offsets_tail(min, max),
        answered(c, now, h, RESPONDER_WAITS_FOR_5).with_offsets(min, max),
    )
}

#[tactic(auto, unfolding(crate::specs::Follows::est_taken))]
fn est_taken(c: Connection, now: Count, h: Header) -> Outcome
    ensures { result ≡ est_taken c now h }
{
    sending(
        reply_header(OFFSET_END, c, now, h),
        message::check_tail(1),
        c.clocked(now)
            .heard(h, now)
            .sent()
            .waiting(OPENED, Count(0)),
    )
}

#[tactic(auto, unfolding(crate::specs::Follows::end_taken))]
fn end_taken(c: Connection, now: Count, h: Header) -> Outcome
    ensures { result ≡ end_taken c now h }
{
    kept(0, 0, c.clocked(now).heard(h, now).waiting(OPENED, Count(0)))
}

#[tactic(auto, unfolding(crate::specs::Follows::data_taken))]
fn data_taken(c: Connection, now: Count, m: Message) -> Outcome
    ensures { result ≡ data_taken c now m.header m.tail }
{
    kept(
        0,
        m.tail.data,
        c.clocked(now).heard(m.header, now).counted(0),
    )
}

#[tactic(auto, unfolding(crate::specs::Follows::message_taken))]
fn message_taken(c: Connection, now: Count, m: Message) -> Outcome
    ensures { result ≡ message_taken c now m.header m.tail }
{
    let h = m.header;
    match h.kind {
        OFFSET_START => start_taken(c, now, h),
        OFFSET_ANSW1 => answ1_taken(c, now, h),
        OFFSET_ANSW2 => answ2_taken(c, now, h),
        OFFSET_EST => est_taken(c, now, h),
        OFFSET_END => end_taken(c, now, h),
        _ => data_taken(c, now, m),
    }
}

#[tactic(auto, unfolding(crate::specs::Follows::refusing))]
fn refusing(c: Connection, now: Count, h: Header) -> Outcome
    ensures { result ≡ refusing c now h }
{
    let reply = Message {
        header: reply_header(OFFSET_END, c, now, h),
        tail: message::check_tail(0),
    };
    comes_to(209, true, 0, Some(reply), Connection::all_zero())
}

// ERR-1, ERR-2: one error more, and at the limit the slot is released.
#[tactic(auto, unfolding(crate::specs::Follows::raised))]
fn raised(c: Connection, number: u16, delivered: usize) -> Outcome
    ensures { result ≡ raised c number delivered }
{
    let errors = c.errors.saturating_add(1);
    if c.settings.limit <= errors {
        released(number, delivered)
    } else {
        kept(number, delivered, c.counted(errors))
    }
}

// What follows a fault when open.
#[tactic(auto, unfolding(crate::specs::Follows::open_follows_of))]
fn open_follows_of(c: Connection, now: Count, m: Message, fault: u16) -> Outcome
    ensures { result ≡ open_follows_of c now m.header m.tail fault }
{
    let moved = c.clocked(now).heard(m.header, now);
    match fault {
        202 => raised(c.clocked(now), 202, 0),
        203 => released(203, 0),
        204 => raised(moved, 204, m.tail.data),
        _ => raised(moved, fault, 0),
    }
}

#[tactic(auto, unfolding(crate::specs::Follows::follows_of))]
fn follows_of(c: Connection, now: Count, m: Message, fault: u16) -> Outcome
    ensures { result ≡ follows_of c now m.header m.tail fault }
{
    if fault == 0 {
        message_taken(c, now, m)
    } else if c.phase == OPENED {
        open_follows_of(c, now, m, fault)
    } else if c.phase == INITIATOR_WAITS_FOR_4 && fault == 209 {
        refusing(c, now, m.header)
    } else {
        released(fault, 0)
    }
}

// AGE-7: what follows a fault's number, with the fault's age.
fn judged_by(c: Connection, now: Count, m: Message, fault: Fault) -> Outcome
    ensures { result ≡ judged_by c now m.header m.tail fault }
{
    Outcome {
        age: fault.age,
        ..follows_of(c, now, m, fault.number)
    }
}

fn met_of(c: Connection, now: Count, m: Message, expectation: Expectation) -> Outcome
    ensures { result ≡ met_of c now m.header m.tail «expectation» }
{
    match expectation {
        Expectation::Expected => judged_by(c, now, m, peer_faults::fault_of(c, now, m)),
        Expectation::Unexpected => kept(211, 0, c.clocked(now)),
        Expectation::Released => released(211, 0),
    }
}

// The message as taken apart, or what could not be, moves the connection.
#[tactic(auto, unfolding(crate::specs::Follows::step_of))]
pub fn step_of(c: Connection, now: Count, parsed: Option<Message>) -> Outcome
    ensures { result ≡ step_of c now parsed }
{
    let Some(m) = parsed else {
        return malformed_of(c, now);
    };
    met_of(
        c,
        now,
        m,
        peer_faults::expectation_of(c.phase, m.header.kind),
    )
}
