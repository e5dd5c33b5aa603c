// The five calls on one record, by value: begin, receive, send, tick and close.
#![tactic(auto)]

ghost use Rattle.std.specs.Prelude.{◌≡◌, true, [], ◌+◌, ◌^◌, ◌≤◌, ◌<◌, length};
ghost use Rattle.std.proofs.lemmas.List.Edits.{sets};
ghost use Rattle.message.specs.Read.{data_place};
ghost use Rattle.connection.specs.Connection.{no_count};
ghost use Rattle.calls.specs.declared.Call.{Call};
ghost use Rattle.calls.specs.Calls.{
  refusal_number,
  first_number,
  close_refusal,
  tick_refusal,
  receive_refusal,
  send_refusal,
  begin_refusal,
  refused,
  expired,
  receive_outcome,
  tick_outcome,
  close_outcome,
  data_header,
  send_outcome,
  start_header,
  start_sent,
  begin_outcome,
  outcome_of,
  reply_bytes,
  says,
  refusal,
  called_with,
  given,
  leaves,
  made,
  writable,
  delivered_of,
};

use clock::{Age, Count};
use connection::{
    CLOSED, Connection, INITIATOR_WAITS_FOR_2, OPENED, Own, RESPONDER_WAITS_FOR_1, Settings,
};
use message::{
    APPLICATION, EST_SIZE, HEADER_SIZE, Header, MOST_DATA, Message, OFFSET_START, START_SIZE, Tail,
};
use what_follows::Outcome;

// The roles, by their numbers: CALL-104.
pub const INITIATOR: u8 = 0;

pub const RESPONDER: u8 = 1;

// What begin is given for the whole of the connection: the role, the settings, the first number and the period.
// Stays: the role as the number that the caller gives, any byte: 104 says which is none (`begin_refusal`).
#[derive(Clone, Copy)]
pub struct Given {
    pub role: u8,
    pub settings: Settings,
    pub own: Own,
}

// A call, with what the caller passes by value beside the now; the bytes to read and the out buffer are lent.
#[derive(Clone, Copy)]
pub enum Call {
    Begin(Given),
    Receive,
    Send,
    Tick,
    Close,
}

// What a call says.
#[derive(Clone, Copy)]
pub struct Answer {
    // 0, or the number of the fault.
    pub number: u16,
    pub released: bool,
    // How many bytes were written at the start of the out buffer.
    pub written: usize,
    // How many bytes of the message, from its application data on, are delivered.
    pub delivered: usize,
    // AGE-7, AGE-8: the age by which the message was judged, with a 0, 204, 205 or 206 of a connection that was open; 0 with any other.
    pub age: Age,
}

// A call's answer, and the record that it leaves.
#[derive(Clone, Copy)]
pub struct Called {
    pub answer: Answer,
    pub next: Connection,
}

// CALL-101 to CALL-108: why a call is refused.
#[derive(Clone, Copy, Debug, PartialEq, Eq)]
enum CallersFault {
    BadRecord,
    Closed,
    InUse,
    OutOfRange,
    ClockWentBack,
    NotOpen,
    DataTooLong,
    BufferTooShort,
}

impl CallersFault {
    fn number(self) -> u16
        ensures { result ≡ refusal_number self }
    {
        match self {
            CallersFault::BadRecord => 101,
            CallersFault::Closed => 102,
            CallersFault::InUse => 103,
            CallersFault::OutOfRange => 104,
            CallersFault::ClockWentBack => 105,
            CallersFault::NotOpen => 106,
            CallersFault::DataTooLong => 107,
            CallersFault::BufferTooShort => 108,
        }
    }
}

// CALL-CLOSE.
#[tactic(auto, unfolding(crate::specs::Calls::bad, crate::specs::Calls::close_refusal))]
fn close_refusal(c: Connection) -> Result<(), CallersFault>
    ensures { first_number result ≡ close_refusal c }
{
    if c.phase == CLOSED {
        return Err(CallersFault::Closed);
    }
    if c.unsound() {
        return Err(CallersFault::BadRecord);
    }
    Ok(())
}

// CALL-TICK.
#[tactic(auto, unfolding(crate::specs::Calls::tick_refusal))]
fn tick_refusal(c: Connection, now: Count) -> Result<(), CallersFault>
    ensures { first_number result ≡ tick_refusal c now }
{
    close_refusal(c)?;
    if now.goes_back(c.clock) {
        return Err(CallersFault::ClockWentBack);
    }
    Ok(())
}

// CALL-RECEIVE.
#[tactic(auto, unfolding(crate::specs::Calls::receive_refusal))]
fn receive_refusal(c: Connection, now: Count, room: usize) -> Result<(), CallersFault>
    ensures { first_number result ≡ receive_refusal c now room }
{
    tick_refusal(c, now)?;
    if room < EST_SIZE {
        return Err(CallersFault::BufferTooShort);
    }
    Ok(())
}

// CALL-SEND.
#[tactic(auto, unfolding(crate::specs::Calls::send_refusal))]
fn send_refusal(c: Connection, now: Count, size: usize, room: usize) -> Result<(), CallersFault>
    ensures { first_number result ≡ send_refusal c now size room }
{
    tick_refusal(c, now)?;
    if c.phase != OPENED {
        return Err(CallersFault::NotOpen);
    }
    if MOST_DATA < size {
        return Err(CallersFault::DataTooLong);
    }
    if room < HEADER_SIZE + size {
        return Err(CallersFault::BufferTooShort);
    }
    Ok(())
}

// CALL-BEGIN.
#[tactic(auto, unfolding(crate::specs::Calls::bad, crate::specs::Calls::begin_refusal))]
fn begin_refusal(c: Connection, g: Given, room: usize) -> Result<(), CallersFault>
    ensures { first_number result ≡ begin_refusal c g room }
{
    if c.phase != CLOSED && c.unsound() {
        return Err(CallersFault::BadRecord);
    }
    if c.phase != CLOSED {
        return Err(CallersFault::InUse);
    }
    if RESPONDER < g.role || g.settings.out_of_range() {
        return Err(CallersFault::OutOfRange);
    }
    if g.role == INITIATOR && room < START_SIZE {
        return Err(CallersFault::BufferTooShort);
    }
    Ok(())
}

// CALL-KEPT: nothing changes.
fn refused(fault: CallersFault, c: Connection) -> Outcome
    ensures { result ≡ refused (refusal_number fault) c }
{
    what_follows::kept(fault.number(), 0, c)
}

// WAIT-1, WAIT-2: whether a wait begun by a send is over.
#[tactic(auto, unfolding(crate::specs::Calls::timed, crate::specs::Calls::expired))]
fn expired(c: Connection, now: Count) -> bool
    ensures { result ≡ expired c now }
{
    c.phase != RESPONDER_WAITS_FOR_1
        && c.phase != OPENED
        && c.settings.t_start <= now.wait_of(c.wait_start)
}

// WAIT-4, PEER-ORDER.
#[tactic(auto, unfolding(crate::specs::Calls::receive_outcome))]
fn receive_outcome(c: Connection, now: Count, message: &[u8], room: usize) -> Outcome
    ensures { result ≡ receive_outcome c now message.now room }
{
    if let Err(fault) = receive_refusal(c, now, room) {
        return refused(fault, c);
    }
    if expired(c, now) {
        return what_follows::released(207, 0);
    }
    what_follows::step_of(c, now, message::parse(message))
}

// WAIT-4.
#[tactic(auto, unfolding(crate::specs::Calls::tick_outcome))]
fn tick_outcome(c: Connection, now: Count) -> Outcome
    ensures { result ≡ tick_outcome c now }
{
    if let Err(fault) = tick_refusal(c, now) {
        return refused(fault, c);
    }
    if expired(c, now) {
        return what_follows::released(207, 0);
    }
    what_follows::kept(0, 0, c.clocked(now))
}

// CALL-CLOSE.
#[tactic(auto, unfolding(crate::specs::Calls::close_outcome))]
fn close_outcome(c: Connection) -> Outcome
    ensures { result ≡ close_outcome c }
{
    if let Err(fault) = close_refusal(c) {
        return refused(fault, c);
    }
    what_follows::released(0, 0)
}

// SEND-1.
fn data_header(c: Connection, now: Count) -> Header
    ensures { result ≡ data_header c now }
{
    Header {
        kind: APPLICATION,
        number: c.own.number,
        stamp: now,
        last_peer_stamp: c.peer.stamp,
        arrival: c.peer.arrival,
    }
}

// NUMBER-1.
#[tactic(auto, unfolding(crate::specs::Calls::send_outcome))]
fn send_outcome(c: Connection, now: Count, size: usize, room: usize) -> Outcome
    requires { size < 2 ^ 63 }
    ensures { result ≡ send_outcome c now size room }
{
    if let Err(fault) = send_refusal(c, now, size, room) {
        return refused(fault, c);
    }
    what_follows::sending(
        data_header(c, now),
        message::data_tail(size),
        c.clocked(now).sent(),
    )
}

// SETUP-1: OffsetStart.
fn start_header(first: u16, now: Count) -> Header
    ensures { result ≡ start_header first now }
{
    Header {
        kind: OFFSET_START,
        number: first,
        stamp: now,
        last_peer_stamp: Count(0),
        arrival: Count(0),
    }
}

// SETUP-1: what an initiator's begin comes to.
fn start_sent(g: Given, now: Count) -> Outcome
    ensures { result ≡ start_sent g now }
{
    what_follows::sending(
        start_header(g.own.number, now),
        message::period_tail(g.own.period),
        Connection::begun(g.settings, g.own, INITIATOR_WAITS_FOR_2, now)
            .sent()
            .waiting(INITIATOR_WAITS_FOR_2, now),
    )
}

// SETUP-0, SETUP-1.
#[tactic(auto, unfolding(crate::specs::Calls::begin_outcome))]
fn begin_outcome(c: Connection, g: Given, now: Count, room: usize) -> Outcome
    ensures { result ≡ begin_outcome c g now room }
{
    if let Err(fault) = begin_refusal(c, g, room) {
        return refused(fault, c);
    }
    if g.role == INITIATOR {
        return start_sent(g, now);
    }
    what_follows::kept(
        0,
        0,
        Connection::begun(g.settings, g.own, RESPONDER_WAITS_FOR_1, now),
    )
}

// What a call comes to, by its rule.
// Inlined, as `make` is, into each caller: where the call is known, the match on it goes, and a tick costs no more than itself.
#[inline(always)]
fn outcome_of(c: Connection, call: Call, now: Count, lent: &[u8], room: usize) -> Outcome
    ensures { result ≡ outcome_of call c now lent.now room }
{
    match call {
        Call::Begin(g) => begin_outcome(c, g, now, room),
        Call::Receive => receive_outcome(c, now, lent, room),
        Call::Send => send_outcome(c, now, lent.len(), room),
        Call::Tick => tick_outcome(c, now),
        Call::Close => close_outcome(c),
    }
}

// CALL-OUT: writes what is sent at the start of out, and answers how many bytes.
fn put(reply: Option<Message>, lent: &[u8], out: &mut [u8]) -> usize
    requires { writable reply (length out.old) (length lent.now) ≡ true }
    ensures { (result ≡ length (reply_bytes reply lent.now))
        × (out.new ≡ sets out.old 0 (reply_bytes reply lent.now)) }
{
    match reply {
        None => 0,
        Some(message) => message_writing::write(out, message, lent),
    }
}

// Every answer is made here, of its parts in their order.
fn says(number: u16, released: bool, written: usize, delivered: usize, age: Age) -> Answer
    ensures { result ≡ says number released written delivered age }
{
    Answer {
        number,
        released,
        written,
        delivered,
        age,
    }
}

// CALL-KEPT: what a caller's fault says.
pub fn refusal(number: u16) -> Answer
    ensures { result ≡ refusal number }
{
    says(number, false, 0, 0, Age::none())
}

// What a call that wrote so many bytes comes to.
fn called_with(o: Outcome, written: usize) -> Called
    ensures { result ≡ called_with o written }
{
    Called {
        answer: says(o.number, o.released, written, o.delivered, o.age),
        next: o.next,
    }
}

// Any call.
#[inline(always)]
pub fn make(c: Connection, call: Call, now: Count, lent: &[u8], out: &mut [u8]) -> Called
    ensures { leaves result out.new ≡ made call c now lent.now out.old }
{
    let o = outcome_of(c, call, now, lent, out.len());
    let written = put(o.reply, lent, out);
    called_with(o, written)
}

// CALL-BEGIN.
pub fn begin(
    c: Connection,
    role: u8,
    settings: Settings,
    first: u16,
    period: u32,
    now: Count,
    out: &mut [u8],
) -> Called
    ensures { leaves result out.new ≡ made (Call.Begin (given role settings first period)) c now [] out.old }
{
    let given = Given {
        role,
        settings,
        own: Own {
            number: first,
            period,
        },
    };
    make(c, Call::Begin(given), now, b"", out)
}

// CALL-RECEIVE.
pub fn receive(c: Connection, now: Count, message: &[u8], out: &mut [u8]) -> Called
    ensures { leaves result out.new ≡ made Call.Receive c now message.now out.old }
{
    make(c, Call::Receive, now, message, out)
}

// CALL-SEND.
pub fn send(c: Connection, now: Count, data: &[u8], out: &mut [u8]) -> Called
    ensures { leaves result out.new ≡ made Call.Send c now «data».now out.old }
{
    make(c, Call::Send, now, data, out)
}

// CALL-TICK: it is lent nothing.
pub fn tick(c: Connection, now: Count) -> Called
    ensures { leaves result [] ≡ made Call.Tick c now [] [] }
{
    make(c, Call::Tick, now, b"", &mut [])
}

// CALL-CLOSE: it is lent nothing, and has no now.
pub fn close(c: Connection) -> Called
    ensures { leaves result [] ≡ made Call.Close c no_count [] [] }
{
    make(c, Call::Close, Count(0), b"", &mut [])
}

// CALL-EMPTY, MSG-DATA: what a receive delivers, as a part of the message.
#[tactic(auto, unfolding(crate::specs::Calls::delivered_of))]
pub fn delivered(message: &[u8], n: usize) -> &[u8]
    ensures { (result.now ≡ delivered_of message.now n) × (result.ref_ptr ≡ data_place message.entry) }
{
    let data = message::data_of(message);
    &data[..n.min(data.len())]
}
