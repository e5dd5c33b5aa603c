// One connection call on a table, and its line: the answer, and every record after it.
// A call in the file: owner 1 (1: the owner of 64 records, else the first records of an array are lent), count 1 (of the records), lent 1
// (how many of them), kind 1 (as in a trace), slot 8, now 4, room 2 (the out buffer's length), size 2, the records
// (connection_row/specs/Row), bytes.
ghost use Rattle.std.specs.Prelude.{◌≡◌, ◌+◌, ◌*◌, ◌≤◌, length, IfSome};
ghost use Rattle.field.specs.Row.{fields_of};
ghost use Rattle.lent_table.specs.LentTable.{records};
ghost use Rattle.call_lines.specs.Record.{most_record_text};
ghost use Rattle.call_lines.specs.Call.{CallFits};
ghost use Rattle.call_lines.specs.Table.{table_widths, table_fields_size, table_from, most_table_text};
ghost use Rattle.text.specs.Text.{left, room_of};

use crate::one_call::{MOST_BYTES, MOST_ROOM};
use crate::{one_call, one_record};
use calls::Answer;
use clock::Count;
use connection::Connection;
use connection_row::ROW_SIZE;
use lent_table::RECORDS;
use table::MOST_RECORDS;
use text::Room;

// The bytes of the fields before the records.
const FIELDS_SIZE: usize = 20;

// The owner of a table calls; else the first records of an array are lent.
const OWNER: u8 = 1;

// What one is worth in the high half of a slot.
const HIGH: usize = 4294967296;

// The fields of a call in the file.
// Stays: the kind as it stands in the file, any byte, for `trace::call_of`.
#[derive(Clone, Copy)]
struct OneTable {
    owner: u8,
    count: u8,
    lent: u8,
    kind: u8,
    slot_high: u32,
    slot_low: u32,
    now: Count,
    room: u16,
    size: u16,
}

// FIELD-2: the fields that stand at the front of s.
fn table_from(s: &[u8]) -> OneTable
    requires { table_fields_size ≤ length s.now }
    ensures { result ≡ table_from (fields_of table_widths s.now 0) }
{
    OneTable {
        owner: field::number_at(s, 0),
        count: field::number_at(s, 1),
        lent: field::number_at(s, 2),
        kind: field::number_at(s, 3),
        slot_high: field::number_at(s, 4),
        slot_low: field::number_at(s, 8),
        now: Count(field::number_at(s, 12)),
        room: field::number_at(s, 16),
        size: field::number_at(s, 18),
    }
}

impl OneTable {
    fn slot(self) -> usize {
        self.slot_high as usize * HIGH + self.slot_low as usize
    }

    // How many records are lent: all that the array has, where it is more.
    fn lent_records(self) -> usize
        ensures { result ≤ records }
    {
        usize::from(self.lent).min(RECORDS)
    }
}

// The records of these rows; those behind them are closed.
fn records_of(rows: &[u8]) -> [Connection; RECORDS] {
    let mut t = [Connection::all_zero(); RECORDS];
    for (c, row) in t.iter_mut().zip(rows.chunks_exact(ROW_SIZE)) {
        *c = connection_row::connection_from(row, 0);
    }
    t
}

// Makes the call, for an owner of the first records or on those that are lent.
fn make_call(
    given: OneTable,
    t: &mut [Connection; RECORDS],
    bytes: &[u8],
    out: &mut [u8],
) -> Answer {
    let call = trace::call_of(given.kind, bytes);
    let slot = given.slot();
    if given.owner == OWNER {
        let mut owned = [Connection::all_zero(); MOST_RECORDS];
        owned.copy_from_slice(&t[..MOST_RECORDS]);
        let held = table::make_in(owned, slot, call, given.now, bytes, out);
        t[..MOST_RECORDS].copy_from_slice(&held.table);
        held.answer
    } else {
        lent_table::make(t, given.lent_records(), slot, call, given.now, bytes, out)
    }
}

// The records, one after the other.
fn put_records<O: Room>(out: &mut O, table: &[Connection])
    requires { length table.now * most_record_text ≤ left (O.held out.old) }
    ensures upper_bound { left (O.held out.old) ≤ left (O.held out.new) + length table.now * most_record_text }
    ensures text_bound { length (O.held out.new).text ≤ length (O.held out.old).text + length table.now * most_record_text }
    ensures same { room_of (O.held out.new) ≡ room_of (O.held out.old) }
{
    for c in table {
        one_record::put_record(out, *c);
    }
}

// The line of a call.
fn put_line<O: Room>(out: &mut O, answer: Answer, table: &[Connection], bytes: &[u8], lent: &[u8])
    requires call_fits { CallFits bytes.now lent.now × (length table.now ≤ records) }
    requires most_table_text_in_bounds { most_table_text ≤ left (O.held out.old) }
    ensures upper_bound { left (O.held out.old) ≤ left (O.held out.new) + most_table_text }
    ensures text_bound { length (O.held out.new).text ≤ length (O.held out.old).text + most_table_text }
    ensures same { room_of (O.held out.new) ≡ room_of (O.held out.old) }
{
    one_call::put_answer(out, answer, bytes, lent);
    put_records(out, table);
    text::put(out, b"\n");
}

// The call at the front of s, if it is there whole, and how many bytes it takes.
pub fn table_at<O: Room>(s: &[u8], out: &mut O) -> Option<usize>
    requires { most_table_text ≤ left (O.held out.old) }
    ensures text { left (O.held out.old) ≤ left (O.held out.new) + most_table_text }
    ensures len { length (O.held out.new).text ≤ length (O.held out.old).text + most_table_text }
    ensures same { room_of (O.held out.new) ≡ room_of (O.held out.old) }
    ensures used { IfSome result (λ used. used ≤ length s.now) }
{
    let (fields, rest) = s.split_at_checked(FIELDS_SIZE)?;
    let given = table_from(fields);
    let count = usize::from(given.count);
    if RECORDS < count {
        return None;
    }
    let (rows, rest) = rest.split_at_checked(count * ROW_SIZE)?;
    let bytes = rest.get(..usize::from(given.size))?;
    let room = usize::from(given.room);
    if MOST_BYTES < bytes.len() || MOST_ROOM < room {
        return None;
    }
    let mut table = records_of(rows);
    let mut lent = [text::BEFORE; MOST_ROOM];
    let answer = make_call(given, &mut table, bytes, &mut lent[..room]);
    put_line(out, answer, &table[..count], bytes, &lent);
    Some(FIELDS_SIZE + rows.len() + bytes.len())
}
