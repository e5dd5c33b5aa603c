// The five calls over a connection that the host keeps as a row of bytes, and that row's fields as numbers: what a C program calls.
#![tactic(auto)]

ghost use Rattle.std.specs.Prelude.{◌≡◌, true, ◌∷◌, [], ◌+◌, ◌^◌, ◌<◌, ◌≤◌, length, get_or};
ghost use Rattle.std.proofs.lemmas.List.Edits.{sets};
ghost use Rattle.field.specs.Row.{fields_of, row_of};
ghost use Rattle.connection.specs.Connection.{no_count};
ghost use Rattle.connection_row.specs.Row.{row_widths, row_size, settings_from, count_from};
ghost use Rattle.connection_row.specs.Stored.{wrote};
ghost use Rattle.calls.specs.declared.Call.{Call};
ghost use Rattle.calls.specs.Calls.{given};
ghost use Rattle.promises.specs.Promises.{callers_fault};
ghost use Rattle.row_calls.specs.Answer.{answer_size, place_of, answer_bytes};
ghost use Rattle.row_calls.specs.RowCalls.{rows_read, stored, stored_in, leaves_in, made_in};
ghost use Rattle.row_calls.specs.Numbers.{field_count, fits, fields_read, fields_written};

use calls::{Answer, Call, Called, Given};
use clock::{Centred, Count};
use connection::{Connection, Own, Settings};
use connection_row::ROW_SIZE;

// ROW-7: the bytes of an answer row.
pub const ANSWER_SIZE: usize = 11;

// ROW-9: how many fields a row has.
pub const FIELDS: usize = 17;

// ROW-1: the bytes of each.
const WIDTHS: [usize; FIELDS] = [1, 2, 4, 4, 4, 4, 1, 2, 4, 2, 4, 4, 4, 4, 4, 1, 4];

// CALL-109: the record that the row stands for, where neither row is refused.
#[tactic(auto, unfolding(crate::specs::RowCalls::refused_rows, crate::specs::RowCalls::rows_read, connection_row::specs::Stored::row_read))]
fn read_rows(row: &[u8], answer_length: usize) -> Option<Connection>
    ensures { result ≡ rows_read row.now answer_length }
{
    if answer_length != ANSWER_SIZE {
        return None;
    }
    connection_row::read_row(row)
}

// A 1xx.
fn callers_fault(number: u16) -> bool
    ensures { result ≡ callers_fault number }
{
    (100..200).contains(&number)
}

// ROW-8: where the delivered data stands in the message.
#[tactic(auto, unfolding(crate::specs::Answer::place_of))]
fn place_of(delivered: usize) -> u32
    ensures { result ≡ place_of delivered }
{
    if delivered == 0 {
        0
    } else {
        message::HEADER_SIZE as u32
    }
}

// ROW-7: what an answer has beside its number.
fn put_answer(row: &mut [u8], said: Answer)
    requires { (answer_size ≤ length row.old) × (said.written < 2 ^ 16) × (said.delivered < 2 ^ 16) }
    ensures { row.new ≡ sets row.old 0 (answer_bytes said) }
{
    field::write(row, 0, 1, said.released as u32);
    field::write(row, 1, 2, said.written as u32);
    field::write(row, 3, 2, place_of(said.delivered));
    field::write(row, 5, 2, said.delivered as u32);
    field::write(row, 7, 4, said.age.bits());
}

// ROW-6, ROW-7: a call on the record is stored in both rows; CALL-KEPT: a caller's fault is not.
fn store(row: &mut [u8], answer: &mut [u8], called: Called) -> u32
    requires row_len { (length row.old ≡ row_size) × (length answer.old ≡ answer_size) }
    requires written_bound { (called.answer.written < 2 ^ 16) × (called.answer.delivered < 2 ^ 16) }
    ensures { stored result row.new answer.new ≡ stored_in row.old answer.old called }
{
    let number = u32::from(called.answer.number);
    if callers_fault(called.answer.number) {
        return number;
    }
    connection_row::put_row(row, called.next);
    put_answer(answer, called.answer);
    number
}

// CALL-109: any call over a row, on the record that the row stands for. Inlined into each of the five, as `calls::make` is into it.
#[inline(always)]
fn make(
    row: &mut [u8],
    call: Call,
    now: Count,
    lent: &[u8],
    out: &mut [u8],
    answer: &mut [u8],
) -> u32
    ensures { leaves_in (stored result row.new answer.new) out.new
        ≡ made_in call row.old now lent.now out.old answer.old }
{
    let Some(c) = read_rows(row, answer.len()) else {
        return 109;
    };
    store(row, answer, calls::make(c, call, now, lent, out))
}

// A number is returned in 32 bits, though 16 hold it: of a narrower result C's compilers differ in what the rest of the register may hold.

// Stays: five wrappers of `make`, alike but for their call: `row_calls_c` exports each under its name.

// CALL-BEGIN over a row.
pub fn zorakunju_begin(
    row: &mut [u8],
    role: u8,
    n: u16,
    t_max: u32,
    e: u32,
    t_start: u32,
    t_off: u32,
    limit: u8,
    first: u16,
    period: u32,
    now: u32,
    out: &mut [u8],
    answer: &mut [u8],
) -> u32
    ensures { leaves_in (stored result row.new answer.new) out.new
        ≡ made_in (Call.Begin (given role (settings_from (n ∷ t_max ∷ e ∷ t_start ∷ t_off ∷ limit ∷ [])) first period))
        row.old (count_from now) [] out.old answer.old }
{
    let given = Given {
        role,
        settings: Settings {
            n,
            t_max,
            e,
            t_start,
            t_off,
            limit,
        },
        own: Own {
            number: first,
            period,
        },
    };
    make(row, Call::Begin(given), Count(now), b"", out, answer)
}

// CALL-RECEIVE over a row.
pub fn zorakunju_receive(
    row: &mut [u8],
    now: u32,
    message: &[u8],
    out: &mut [u8],
    answer: &mut [u8],
) -> u32
    ensures { leaves_in (stored result row.new answer.new) out.new
        ≡ made_in Call.Receive row.old (count_from now) message.now out.old answer.old }
{
    make(row, Call::Receive, Count(now), message, out, answer)
}

// CALL-SEND over a row.
pub fn zorakunju_send(
    row: &mut [u8],
    now: u32,
    data: &[u8],
    out: &mut [u8],
    answer: &mut [u8],
) -> u32
    ensures { leaves_in (stored result row.new answer.new) out.new
        ≡ made_in Call.Send row.old (count_from now) «data».now out.old answer.old }
{
    make(row, Call::Send, Count(now), data, out, answer)
}

// CALL-TICK over a row.
pub fn zorakunju_tick(row: &mut [u8], now: u32, answer: &mut [u8]) -> u32
    ensures { leaves_in (stored result row.new answer.new) []
        ≡ made_in Call.Tick row.old (count_from now) [] [] answer.old }
{
    make(row, Call::Tick, Count(now), b"", &mut [], answer)
}

// CALL-CLOSE over a row.
pub fn zorakunju_close(row: &mut [u8], answer: &mut [u8]) -> u32
    ensures { leaves_in (stored result row.new answer.new) []
        ≡ made_in Call.Close row.old no_count [] [] answer.old }
{
    make(row, Call::Close, Count(0), b"", &mut [], answer)
}

// ROW-9: each field of a row as a number.
fn put_numbers(row: &[u8], fields: &mut [u32])
    requires { (length row.now ≡ row_size) × (field_count ≤ length fields.old) }
    ensures { fields.new ≡ sets fields.old 0 (fields_of row_widths row.now 0) }
{
    let mut at = 0;
    for i in 0..FIELDS {
        let w = WIDTHS[i];
        fields[i] = field::read(row, at, w);
        at += w;
    }
}

// ROW-10: each number in the bytes of its field, and whether it fits: what was written reads back.
fn put_fields(row: &mut [u8], fields: &[u32]) -> bool
    requires { (length row.old ≡ row_size) × (length fields.now ≡ field_count) }
    ensures value { result ≡ fits row_widths fields.now }
    ensures row_after { result ≡ true → row.new ≡ row_of row_widths fields.now }
{
    let mut at = 0;
    for i in 0..FIELDS {
        let w = WIDTHS[i];
        let x = fields[i];
        field::write(row, at, w, x);
        // Stays: a way out of the loop, and no `all`: its closure would write the row and move the place.
        if field::read(row, at, w) != x {
            return false;
        }
        at += w;
    }
    true
}

// ROW-9.
#[tactic(auto, using(connection_row::proofs::Accepts::refusals), unfolding(crate::specs::Numbers::fields_read))]
pub fn zorakunju_read_row(row: &[u8], fields: &mut [u32]) -> u32
    ensures { wrote result fields.new ≡ fields_read row.now fields.old }
{
    if connection_row::read_row(row).is_none() {
        return 109;
    }
    if fields.len() < FIELDS {
        return 108;
    }
    put_numbers(row, fields);
    0
}

// ROW-10.
pub fn zorakunju_write_row(fields: &[u32], row: &mut [u8]) -> u32
    ensures { wrote result row.new ≡ fields_written fields.now row.old }
{
    let mut made = [0u8; ROW_SIZE];
    if fields.len() != FIELDS || !put_fields(&mut made, fields) {
        return 109;
    }
    u32::from(connection_row::write_row(connection_row::connection_from(&made, 0), row))
}
