// A connection's record as a row of bytes, and its settings among them: each field is read and written where the layout has it.
#![tactic(auto)]

ghost use Rattle.std.specs.Prelude.{◌≡◌, ◌∷◌, [], ◌+◌, ◌≤◌, length};
ghost use Rattle.std.proofs.lemmas.List.Edits.{sets};
ghost use Rattle.field.specs.Field.{field_of};
ghost use Rattle.field.specs.Row.{fields_of, width_of, row_of};
ghost use Rattle.connection_row.specs.Row.{settings_widths, settings_from, settings_numbers, row_widths, count_from, offset_from};
ghost use Rattle.connection_row.specs.Row.{connection_from, row_size, offset_number, row_bytes};
ghost use Rattle.connection_row.specs.Stored.{zeros, row_read, wrote, row_stored, row_written};

use clock::{Centred, Count, Offset};
use connection::{CLOSED, Connection, Offsets, Own, Peer, Settings};

// ROW-1: the bytes of a row.
pub const ROW_SIZE: usize = 53;

// FIELD-2: the settings that stand in s from at.
pub fn settings_from(s: &[u8], at: usize) -> Settings
    requires { at + width_of settings_widths ≤ length s.now }
    ensures { result ≡ settings_from (fields_of settings_widths s.now at) }
{
    Settings {
        n: field::number_at(s, at),
        t_max: field::number_at(s, at + 2),
        e: field::number_at(s, at + 6),
        t_start: field::number_at(s, at + 10),
        t_off: field::number_at(s, at + 14),
        limit: field::number_at(s, at + 18),
    }
}

// FIELD-2: a count in four bytes.
fn read_count(s: &[u8], at: usize) -> Count
    requires { at + 4 ≤ length s.now }
    ensures { result ≡ count_from (field_of s.now at 4) }
{
    Count(field::number_at(s, at))
}

// FIELD-2: an offset in two's complement.
fn read_offset(s: &[u8], at: usize) -> Offset
    requires { at + 4 ≤ length s.now }
    ensures { result ≡ offset_from (field_of s.now at 4) }
{
    Offset::between(read_count(s, at), Count(0))
}

// FIELD-2: the record that stands in s from at.
pub fn connection_from(s: &[u8], at: usize) -> Connection
    requires { at + width_of row_widths ≤ length s.now }
    ensures { result ≡ connection_from (fields_of row_widths s.now at) }
{
    Connection {
        phase: field::number_at(s, at),
        settings: settings_from(s, at + 1),
        own: Own {
            number: field::number_at(s, at + 20),
            period: field::number_at(s, at + 22),
        },
        peer: Peer {
            number: field::number_at(s, at + 26),
            stamp: read_count(s, at + 28),
            arrival: read_count(s, at + 32),
        },
        wait_start: read_count(s, at + 36),
        offsets: Offsets {
            min: read_offset(s, at + 40),
            max: read_offset(s, at + 44),
        },
        errors: field::number_at(s, at + 48),
        clock: read_count(s, at + 49),
    }
}

// ROW-3: each byte is 0.
fn zeros(s: &[u8]) -> bool
    ensures { result ≡ zeros s.now }
{
    s.iter().all(|b| *b == 0)
}

// CALL-109: the record that a row stands for, unless the row is refused.
#[tactic(auto, unfolding(crate::specs::Row::stands_for, crate::specs::Stored::row_refusal, crate::specs::Stored::row_read))]
pub fn read_row(row: &[u8]) -> Option<Connection>
    ensures { result ≡ row_read row.now }
{
    if row.len() != ROW_SIZE {
        return None;
    }
    let c = connection_from(row, 0);
    if c.phase == CLOSED && !zeros(row) {
        return None;
    }
    if c.phase != CLOSED && c.unsound() {
        return None;
    }
    Some(c)
}

// Stays: `row_size ≤ length row.old` four times, and no `[u8; ROW_SIZE]`: a longer row is lent too, and what is behind stays.

// ROW-1: the phase and the settings.
fn put_settings(row: &mut [u8], phase: u8, s: Settings)
    requires { row_size ≤ length row.old }
    ensures { row.new ≡ sets row.old 0 (row_of (1 ∷ settings_widths) (phase ∷ settings_numbers s)) }
{
    field::write(row, 0, 1, phase as u32);
    field::write(row, 1, 2, s.n as u32);
    field::write(row, 3, 4, s.t_max);
    field::write(row, 7, 4, s.e);
    field::write(row, 11, 4, s.t_start);
    field::write(row, 15, 4, s.t_off);
    field::write(row, 19, 1, s.limit as u32);
}

// ROW-1: what is our own, and what was heard last of the peer, behind the settings.
fn put_own_and_peer(row: &mut [u8], own: Own, peer: Peer)
    requires { row_size ≤ length row.old }
    ensures { row.new ≡ sets row.old 20 (row_of (2 ∷ 4 ∷ 2 ∷ 4 ∷ 4 ∷ [])
        (own.number ∷ own.period ∷ peer.number ∷ peer.stamp.0 ∷ peer.arrival.0 ∷ [])) }
{
    field::write(row, 20, 2, own.number as u32);
    field::write(row, 22, 4, own.period);
    field::write(row, 26, 2, peer.number as u32);
    field::write(row, 28, 4, peer.stamp.0);
    field::write(row, 32, 4, peer.arrival.0);
}

// ROW-1: the rest, behind the peer's: the start of the wait, the offsets in two's complement, the error counter, the remembered clock.
fn put_rest(row: &mut [u8], since: Count, offsets: Offsets, errors: u8, clock: Count)
    requires { row_size ≤ length row.old }
    ensures { row.new ≡ sets row.old 36 (row_of (4 ∷ 4 ∷ 4 ∷ 1 ∷ 4 ∷ [])
        (since.0 ∷ offset_number offsets.min ∷ offset_number offsets.max ∷ errors ∷ clock.0 ∷ [])) }
{
    field::write(row, 36, 4, since.0);
    field::write(row, 40, 4, offsets.min.bits());
    field::write(row, 44, 4, offsets.max.bits());
    field::write(row, 48, 1, errors as u32);
    field::write(row, 49, 4, clock.0);
}

// ROW-1: the row of a record, from the start of a slice; what is behind it stays.
pub fn put_row(row: &mut [u8], c: Connection)
    requires { row_size ≤ length row.old }
    ensures { row.new ≡ sets row.old 0 (row_bytes c) }
{
    put_settings(row, c.phase, c.settings);
    put_own_and_peer(row, c.own, c.peer);
    put_rest(row, c.wait_start, c.offsets, c.errors, c.clock);
}

// ROW-5: a row that is not refused is stored at the start of out.
// Stays: the number itself, 0, 108 or 109: `write_row` and C say it, and an enum of two would be turned into it in the next line.
#[tactic(auto, using(crate::proofs::Accepts::refusals), unfolding(crate::specs::Stored::row_stored))]
fn store_row(row: &[u8], out: &mut [u8]) -> u16
    ensures { wrote result out.new ≡ row_stored row.now out.old }
{
    if read_row(row).is_none() {
        return 109;
    }
    if out.len() < ROW_SIZE {
        return 108;
    }
    field::copy(out, 0, row);
    0
}

// ROW-5.
pub fn write_row(c: Connection, out: &mut [u8]) -> u16
    ensures { wrote result out.new ≡ row_written c out.old }
{
    let mut row = [0u8; ROW_SIZE];
    put_row(&mut row, c);
    store_row(&row, out)
}
