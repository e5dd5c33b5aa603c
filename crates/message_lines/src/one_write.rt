// One message that is written from its fields, and its line: how many bytes were written, and the bytes.
// A message in the file: type 1, number 2, stamp 4, last peer stamp 4, own count at its arrival 4, period 4, min 4, max 4 (in two's
// complement), check byte 1, said size of the data 4, room 2 (the out buffer's length), size 2, data.
ghost use Rattle.std.specs.Prelude.{◌≡◌, ◌+◌, ◌≤◌, length, IfSome};
ghost use Rattle.field.specs.Row.{fields_of};
ghost use Rattle.message_lines.specs.Message.{most_message_room};
ghost use Rattle.message_lines.specs.Write.{write_widths, write_fields_size, write_from, most_write_text};
ghost use Rattle.text.specs.Text.{left, room_of};

use crate::one_message::MOST_ROOM;
use clock::{Centred, Count, Offset};
use message::{Header, Message, Tail};
use text::Room;

// The bytes of the fields before the data.
const FIELDS_SIZE: usize = 36;

// The fields of a message in the file.
// Stays: the type as it stands in the file, any byte, for `message_writing::write` to judge.
#[derive(Clone, Copy)]
struct Write {
    kind: u8,
    number: u16,
    stamp: u32,
    last_peer_stamp: u32,
    arrival: u32,
    period: u32,
    min: u32,
    max: u32,
    check: u8,
    said: u32,
    room: u16,
    size: u16,
}

// FIELD-2: the fields that stand at the front of s.
fn write_from(s: &[u8]) -> Write
    requires { write_fields_size ≤ length s.now }
    ensures { result ≡ write_from (fields_of write_widths s.now 0) }
{
    Write {
        kind: field::number_at(s, 0),
        number: field::number_at(s, 1),
        stamp: field::number_at(s, 3),
        last_peer_stamp: field::number_at(s, 7),
        arrival: field::number_at(s, 11),
        period: field::number_at(s, 15),
        min: field::number_at(s, 19),
        max: field::number_at(s, 23),
        check: field::number_at(s, 27),
        said: field::number_at(s, 28),
        room: field::number_at(s, 32),
        size: field::number_at(s, 34),
    }
}

impl Write {
    fn message(self) -> Message {
        Message {
            header: Header {
                kind: self.kind,
                number: self.number,
                stamp: Count(self.stamp),
                last_peer_stamp: Count(self.last_peer_stamp),
                arrival: Count(self.arrival),
            },
            tail: Tail {
                period: self.period,
                min: Offset::of_bits(self.min),
                max: Offset::of_bits(self.max),
                check: self.check,
                data: self.said as usize,
            },
        }
    }

    // The message with this data, written to a lent buffer: how many bytes.
    fn write(self, data: &[u8], lent: &mut [u8]) -> usize {
        message_writing::write(lent, self.message(), data)
    }
}

// The line of a message that was written: how many bytes, and the bytes.
fn put_write<O: Room>(out: &mut O, written: usize, lent: &[u8])
    requires { (length lent.now ≤ most_message_room) × (most_write_text ≤ left (O.held out.old)) }
    ensures upper_bound { left (O.held out.old) ≤ left (O.held out.new) + most_write_text }
    ensures text_bound { length (O.held out.new).text ≤ length (O.held out.old).text + most_write_text }
    ensures same { room_of (O.held out.new) ≡ room_of (O.held out.old) }
{
    text::put_decimal(out, written as u64);
    text::put_written(out, lent, written);
    text::put(out, b"\n");
}

// The message at the front of s, if it is there whole, and how many bytes it takes.
pub fn write_at<O: Room>(s: &[u8], out: &mut O) -> Option<usize>
    requires { most_write_text ≤ left (O.held out.old) }
    ensures text { left (O.held out.old) ≤ left (O.held out.new) + most_write_text }
    ensures len { length (O.held out.new).text ≤ length (O.held out.old).text + most_write_text }
    ensures same { room_of (O.held out.new) ≡ room_of (O.held out.old) }
    ensures used { IfSome result (λ used. used ≤ length s.now) }
{
    let (fields, rest) = s.split_at_checked(FIELDS_SIZE)?;
    let given = write_from(fields);
    let data = rest.get(..usize::from(given.size))?;
    let room = usize::from(given.room);
    if MOST_ROOM < room {
        return None;
    }
    let mut lent = [text::BEFORE; MOST_ROOM];
    let written = given.write(data, &mut lent[..room]);
    put_write(out, written, &lent);
    Some(FIELDS_SIZE + data.len())
}
