// One connection call, on a record of its own, alone and in the last slot of a table, and its line: the answer, and the record after it.
// A call in the file: the record (connection_row/specs/Row), kind 1 (as in a trace), now 4, room 2 (the out buffer's length), size 2,
// bytes.
ghost use Rattle.std.specs.Prelude.{◌≡◌, ◌+◌, ◌≤◌, length, IfSome};
ghost use Rattle.field.specs.Row.{fields_of};
ghost use Rattle.connection_row.specs.Row.{row_size};
ghost use Rattle.call_lines.specs.Call.{call_widths, call_fields_size, call_from, most_call_bytes, most_call_room, CallFits};
ghost use Rattle.call_lines.specs.Call.{most_number_text, most_delivered_text, most_answer_text, most_call_text};
ghost use Rattle.text.specs.Text.{left, room_of};

use crate::one_record;
use calls::{Answer, Call, Called};
use clock::Count;
use connection::Connection;
use connection_row::ROW_SIZE;
use table::MOST_RECORDS;
use text::Room;

// The bytes of the record and of the fields before a call's own.
const FIELDS_SIZE: usize = ROW_SIZE + 9;

// The most bytes of a call.
pub const MOST_BYTES: usize = 1024;

// The most room of an out buffer.
pub const MOST_ROOM: usize = 1024;

// The last slot.
const SLOT: usize = MOST_RECORDS - 1;

// A number that no call answers: alone and in the table, the call did not come to the same.
const NOT_THE_SAME: u16 = u16::MAX;

// The fields of a call in the file, behind its record.
// Stays: the kind as it stands in the file, any byte, for `trace::call_of`.
#[derive(Clone, Copy)]
struct OneCall {
    kind: u8,
    now: Count,
    room: u16,
    size: u16,
}

// FIELD-2: the fields that stand behind the record at the front of s.
fn call_from(s: &[u8]) -> OneCall
    requires { call_fields_size ≤ length s.now }
    ensures { result ≡ call_from (fields_of call_widths s.now row_size) }
{
    OneCall {
        kind: field::number_at(s, ROW_SIZE),
        now: Count(field::number_at(s, ROW_SIZE + 1)),
        room: field::number_at(s, ROW_SIZE + 5),
        size: field::number_at(s, ROW_SIZE + 7),
    }
}

// Makes the call on a record by value, by the function that has its name.
fn by_its_name(c: Connection, given: OneCall, bytes: &[u8], out: &mut [u8]) -> Called {
    let OneCall { kind, now, .. } = given;
    match trace::call_of(kind, bytes) {
        Call::Begin(g) => calls::begin(c, g.role, g.settings, g.own.number, g.own.period, now, out),
        Call::Receive => calls::receive(c, now, bytes, out),
        Call::Send => calls::send(c, now, bytes, out),
        Call::Tick => calls::tick(c, now),
        Call::Close => calls::close(c),
    }
}

// Makes it on the record in the last slot of a table whose other slots are closed, by the owner's call.
fn in_the_last_slot(c: Connection, given: OneCall, bytes: &[u8], out: &mut [u8]) -> Called {
    let mut table = [Connection::all_zero(); MOST_RECORDS];
    table[SLOT] = c;
    let call = trace::call_of(given.kind, bytes);
    let held = table::make_in(table, SLOT, call, given.now, bytes, out);
    Called {
        answer: held.answer,
        next: held.table[SLOT],
    }
}

// Whether two calls came to the same: each field of the answer, and each of the record after it.
fn same(one: Called, other: Called) -> bool {
    let mut rows = [[0; ROW_SIZE]; 2];
    connection_row::put_row(&mut rows[0], one.next);
    connection_row::put_row(&mut rows[1], other.next);
    let (a, b) = (one.answer, other.answer);
    rows[0] == rows[1]
        && a.number == b.number
        && a.released == b.released
        && a.written == b.written
        && a.delivered == b.delivered
        && a.age == b.age
}

// Makes the call on a record in both ways, each with an out buffer of its own, which must come to the same.
fn make_call(c: Connection, given: OneCall, bytes: &[u8], out: &mut [u8]) -> Called
    requires { length out.old ≤ most_call_room }
{
    let mut lent = [text::BEFORE; MOST_ROOM];
    let alone = &mut lent[..out.len()];
    let named = by_its_name(c, given, bytes, alone);
    let made = in_the_last_slot(c, given, bytes, out);
    if same(made, named) && *out == *alone {
        return made;
    }
    let answer = Answer {
        number: NOT_THE_SAME,
        ..made.answer
    };
    Called { answer, ..made }
}

// The answer's number, and whether the slot was released.
fn put_number<O: Room>(out: &mut O, number: u16, released: bool)
    requires { most_number_text ≤ left (O.held out.old) }
    ensures upper_bound { left (O.held out.old) ≤ left (O.held out.new) + most_number_text }
    ensures text_bound { length (O.held out.new).text ≤ length (O.held out.old).text + most_number_text }
    ensures same { room_of (O.held out.new) ≡ room_of (O.held out.old) }
{
    text::put_decimal(out, u64::from(number));
    text::put(out, if released { b" 1" } else { b" 0" });
}

// The part of a message that is delivered.
#[tactic(auto, using(crate::proofs::Parts::no_longer))]
fn delivered_of(bytes: &[u8], count: usize) -> &[u8]
    requires { length bytes.now ≤ most_call_bytes }
    ensures { length result.now ≤ most_call_bytes }
{
    calls::delivered(bytes, count)
}

// Where the part that is delivered starts in the message, 0 for an empty part, and its bytes.
fn put_delivered<O: Room>(out: &mut O, bytes: &[u8], count: usize)
    requires { (length bytes.now ≤ most_call_bytes) × (most_delivered_text ≤ left (O.held out.old)) }
    ensures upper_bound { left (O.held out.old) ≤ left (O.held out.new) + most_delivered_text }
    ensures text_bound { length (O.held out.new).text ≤ length (O.held out.old).text + most_delivered_text }
    ensures same { room_of (O.held out.new) ≡ room_of (O.held out.old) }
{
    if count == 0 {
        text::put(out, b" 0 -");
    } else {
        text::put_number(out, message::HEADER_SIZE as u64);
        text::put_bytes(out, delivered_of(bytes, count));
    }
}

// The words of an answer: its number, whether the slot was released, what was written, what is delivered, the age.
// Stays: `bytes` and `lent` side by side, and `CallFits` of both: the bytes of a call and its out buffer are two things.
pub fn put_answer<O: Room>(out: &mut O, answer: Answer, bytes: &[u8], lent: &[u8])
    requires { CallFits bytes.now lent.now × (most_answer_text ≤ left (O.held out.old)) }
    ensures upper_bound { left (O.held out.old) ≤ left (O.held out.new) + most_answer_text }
    ensures text_bound { length (O.held out.new).text ≤ length (O.held out.old).text + most_answer_text }
    ensures same { room_of (O.held out.new) ≡ room_of (O.held out.old) }
{
    put_number(out, answer.number, answer.released);
    text::put_written(out, lent, answer.written);
    put_delivered(out, bytes, answer.delivered);
    text::put_centred(out, answer.age);
}

// The line of a call.
fn put_line<O: Room>(out: &mut O, made: Called, bytes: &[u8], lent: &[u8])
    requires { CallFits bytes.now lent.now × (most_call_text ≤ left (O.held out.old)) }
    ensures upper_bound { left (O.held out.old) ≤ left (O.held out.new) + most_call_text }
    ensures text_bound { length (O.held out.new).text ≤ length (O.held out.old).text + most_call_text }
    ensures same { room_of (O.held out.new) ≡ room_of (O.held out.old) }
{
    put_answer(out, made.answer, bytes, lent);
    one_record::put_record(out, made.next);
    text::put(out, b"\n");
}

// The call at the front of s, if it is there whole, and how many bytes it takes.
pub fn call_at<O: Room>(s: &[u8], out: &mut O) -> Option<usize>
    requires { most_call_text ≤ left (O.held out.old) }
    ensures text { left (O.held out.old) ≤ left (O.held out.new) + most_call_text }
    ensures len { length (O.held out.new).text ≤ length (O.held out.old).text + most_call_text }
    ensures same { room_of (O.held out.new) ≡ room_of (O.held out.old) }
    ensures used { IfSome result (λ used. used ≤ length s.now) }
{
    let (fields, rest) = s.split_at_checked(FIELDS_SIZE)?;
    let given = call_from(fields);
    let bytes = rest.get(..usize::from(given.size))?;
    let room = usize::from(given.room);
    if MOST_BYTES < bytes.len() || MOST_ROOM < room {
        return None;
    }
    let c = connection_row::connection_from(fields, 0);
    let mut lent = [text::BEFORE; MOST_ROOM];
    let made = make_call(c, given, bytes, &mut lent[..room]);
    put_line(out, made, bytes, &lent);
    Some(FIELDS_SIZE + bytes.len())
}
