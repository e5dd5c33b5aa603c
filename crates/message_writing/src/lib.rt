// Writing a message: its bytes at the start of an out buffer, or none.
#![tactic(auto)]

ghost use Rattle.std.specs.Prelude.{◌≡◌, ◌+◌, ◌^◌, ◌<◌, ◌≤◌, length};
ghost use Rattle.std.proofs.lemmas.List.Edits.{sets};
ghost use Rattle.message.specs.Table.{header_size, offset_size};
ghost use Rattle.message_writing.specs.Writing.{header_bytes, offset_bytes, after_bytes, lent_as_said, allowed_of, message_written};

use clock::Offset;
use message::{After, HEADER_SIZE, Header, MAX_AT, Message, Tail};

// MSG-HEAD.
#[tactic(auto, unfolding(field::specs::Field::bytes_of))]
fn write_header(out: &mut [u8], h: Header)
    requires { header_size ≤ length out.old }
    ensures { out.new ≡ sets out.old 0 (header_bytes h) }
{
    field::write(out, 0, 1, u32::from(h.kind));
    field::write(out, 1, 2, u32::from(h.number));
    field::write(out, 3, 4, h.stamp.0);
    field::write(out, 7, 4, h.last_peer_stamp.0);
    field::write(out, 11, 4, h.arrival.0);
}

// An offset, as sign and magnitude.
// Stays: a slice and a place in it, as `field::write` has them.
#[tactic(auto, unfolding(field::specs::Field::bytes_of))]
fn write_offset(out: &mut [u8], at: usize, offset: Offset)
    requires { at + offset_size ≤ length out.old }
    ensures { out.new ≡ sets out.old at (offset_bytes offset) }
{
    let pair = offset.sign_magnitude();
    field::write(out, at, 1, u32::from(pair.sign));
    field::write(out, at + 1, 4, pair.magnitude);
}

// What follows the header.
#[tactic(auto, unfolding(field::specs::Field::bytes_of))]
fn write_after(out: &mut [u8], after: After, t: Tail, data: &[u8])
    requires { header_size + length (after_bytes after t «data».now) ≤ length out.old }
    ensures { out.new ≡ sets out.old header_size (after_bytes after t «data».now) }
{
    match after {
        After::Period => field::write(out, HEADER_SIZE, 4, t.period),
        After::Nothing => {}
        After::Offsets => {
            write_offset(out, HEADER_SIZE, t.min);
            write_offset(out, MAX_AT, t.max);
        }
        After::Check => field::write(out, HEADER_SIZE, 1, u32::from(t.check)),
        After::Data => field::copy(out, HEADER_SIZE, data),
    }
}

// As many bytes of application data lent as the tail says, in a type that has data.
fn lent_as_said(after: After, said: usize, n: usize) -> bool
    ensures { result ≡ lent_as_said after said n }
{
    !matches!(after, After::Data) || said == n
}

// MSG-WRITE: what the table allows, of a message with n bytes of data lent.
#[tactic(auto, unfolding(crate::specs::Writing::allowed_of))]
fn allowed_of(message: Message, n: usize) -> bool
    requires { n < 2 ^ 63 }
    ensures { result ≡ allowed_of message.header message.tail n }
{
    let row = message::table_of(message.header.kind);
    row.lists(row.total_of(n))
        && !message::later_stamp(message.header)
        && !message::check_over(message.tail.check)
        && lent_as_said(row.after, message.tail.data, n)
}

// MSG-WRITE: writes the message from the start of out, and answers how many bytes: none where it is not allowed or out has no
// room.
pub fn write(out: &mut [u8], message: Message, data: &[u8]) -> usize
    ensures { let bytes = message_written (length out.old) message.header message.tail «data».now in
        (result ≡ length bytes) × (out.new ≡ sets out.old 0 bytes) }
{
    let row = message::table_of(message.header.kind);
    let total = row.total_of(data.len());
    if out.len() < total || !allowed_of(message, data.len()) {
        return 0;
    }
    write_header(out, message.header);
    write_after(out, row.after, message.tail, data);
    total
}
