// One message, taken apart and written back, and its line: what was read, then what was written.
// A message in the file: size 2, bytes.
ghost use Rattle.std.specs.Prelude.{◌≡◌, ◌+◌, ◌≤◌, length, IfSome};
ghost use Rattle.message_lines.specs.Message.{most_header_text, most_after_text, most_back_text, most_message_text};
ghost use Rattle.text.specs.Text.{left, room_of};

use message::{
    Header, Message, OFFSET_ANSW1, OFFSET_ANSW2, OFFSET_END, OFFSET_EST, OFFSET_START, Tail,
};
use text::Room;

// The bytes of the field before the message's own.
const FIELDS_SIZE: usize = 2;

// The most room of an out buffer that a message is written to.
pub const MOST_ROOM: usize = 2048;

// The header's fields.
fn put_header<O: Room>(out: &mut O, h: Header)
    requires { most_header_text ≤ left (O.held out.old) }
    ensures upper_bound { left (O.held out.old) ≤ left (O.held out.new) + most_header_text }
    ensures text_bound { length (O.held out.new).text ≤ length (O.held out.old).text + most_header_text }
    ensures same { room_of (O.held out.new) ≡ room_of (O.held out.old) }
{
    text::put_decimal(out, u64::from(h.kind));
    text::put_number(out, u64::from(h.number));
    text::put_number(out, u64::from(h.stamp.0));
    text::put_number(out, u64::from(h.last_peer_stamp.0));
    text::put_number(out, u64::from(h.arrival.0));
}

// The offsets of OffsetEst.
fn put_offsets<O: Room>(out: &mut O, t: Tail)
    requires { most_after_text ≤ left (O.held out.old) }
    ensures upper_bound { left (O.held out.old) ≤ left (O.held out.new) + most_after_text }
    ensures text_bound { length (O.held out.new).text ≤ length (O.held out.old).text + most_after_text }
    ensures same { room_of (O.held out.new) ≡ room_of (O.held out.old) }
{
    text::put_centred(out, t.min);
    text::put_centred(out, t.max);
}

// What the type has after the header: of application data only how many bytes.
fn put_after<O: Room>(out: &mut O, kind: u8, t: Tail)
    requires { most_after_text ≤ left (O.held out.old) }
    ensures upper_bound { left (O.held out.old) ≤ left (O.held out.new) + most_after_text }
    ensures text_bound { length (O.held out.new).text ≤ length (O.held out.old).text + most_after_text }
    ensures same { room_of (O.held out.new) ≡ room_of (O.held out.old) }
{
    match kind {
        OFFSET_START | OFFSET_ANSW1 => text::put_number(out, u64::from(t.period)),
        OFFSET_ANSW2 => text::put(out, b" -"),
        OFFSET_EST => put_offsets(out, t),
        OFFSET_END => text::put_number(out, u64::from(t.check)),
        _ => text::put_number(out, t.data as u64),
    }
}

// The message written back into a buffer of its own.
fn put_back<O: Room>(out: &mut O, message: Message, s: &[u8])
    requires { most_back_text ≤ left (O.held out.old) }
    ensures upper_bound { left (O.held out.old) ≤ left (O.held out.new) + most_back_text }
    ensures text_bound { length (O.held out.new).text ≤ length (O.held out.old).text + most_back_text }
    ensures same { room_of (O.held out.new) ≡ room_of (O.held out.old) }
{
    let mut lent = [text::BEFORE; MOST_ROOM];
    let written = message_writing::write(&mut lent, message, message::data_of(s));
    text::put(out, b" =");
    text::put_written(out, &lent, written);
}

// The line of a message as it was taken apart.
fn put_message<O: Room>(out: &mut O, s: &[u8])
    requires { most_message_text ≤ left (O.held out.old) }
    ensures upper_bound { left (O.held out.old) ≤ left (O.held out.new) + most_message_text }
    ensures text_bound { length (O.held out.new).text ≤ length (O.held out.old).text + most_message_text }
    ensures same { room_of (O.held out.new) ≡ room_of (O.held out.old) }
{
    let Some(message) = message::parse(s) else {
        text::put(out, b"malformed\n");
        return;
    };
    put_header(out, message.header);
    put_after(out, message.header.kind, message.tail);
    put_back(out, message, s);
    text::put(out, b"\n");
}

// The message at the front of s, if it is there whole, and how many bytes it takes.
pub fn message_at<O: Room>(s: &[u8], out: &mut O) -> Option<usize>
    requires { most_message_text ≤ left (O.held out.old) }
    ensures text { left (O.held out.old) ≤ left (O.held out.new) + most_message_text }
    ensures len { length (O.held out.new).text ≤ length (O.held out.old).text + most_message_text }
    ensures same { room_of (O.held out.new) ≡ room_of (O.held out.old) }
    ensures used { IfSome result (λ used. used ≤ length s.now) }
{
    let (fields, rest) = s.split_at_checked(FIELDS_SIZE)?;
    let message = rest.get(..usize::from(field::number_at::<u16>(fields, 0)))?;
    put_message(out, message);
    Some(FIELDS_SIZE + message.len())
}
