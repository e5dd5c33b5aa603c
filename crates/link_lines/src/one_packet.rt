// One packet that is written, and its line: the answer, and the bytes written.
// A packet in the file: link 1 (1 normal, 0 redundant), version 1, application type 1, number 2, packet type 1, room 2 (the out buffer's
// length), size 2, user data.
ghost use Rattle.std.specs.Prelude.{◌≡◌, ◌+◌, ◌≤◌, length, IfSome};
ghost use Rattle.field.specs.Row.{fields_of};
ghost use Rattle.link_lines.specs.Packet.{packet_given_widths, packet_fields_size, packet_from, most_packet_room, most_packet_text};
ghost use Rattle.text.specs.Text.{left, room_of};

use packet_writing::Written;
use text::Room;

// The bytes of the fields before the user data.
const FIELDS_SIZE: usize = 10;

// The most room of an out buffer: what a field of two bytes can say.
const MOST_ROOM: usize = 65535;

// The fields of a packet in the file.
// Stays: the type as it stands in the file, any byte, for `packet_writing::write` to judge.
#[derive(Clone, Copy)]
struct Packet {
    link: u8,
    version: u8,
    application: u8,
    number: u16,
    kind: u8,
    room: u16,
    size: u16,
}

// FIELD-2: the fields that stand at the front of s.
fn packet_from(s: &[u8]) -> Packet
    requires { packet_fields_size ≤ length s.now }
    ensures { result ≡ packet_from (fields_of packet_given_widths s.now 0) }
{
    Packet {
        link: field::number_at(s, 0),
        version: field::number_at(s, 1),
        application: field::number_at(s, 2),
        number: field::number_at(s, 3),
        kind: field::number_at(s, 5),
        room: field::number_at(s, 6),
        size: field::number_at(s, 8),
    }
}

impl Packet {
    // The packet with this user data, written to a lent buffer.
    fn write(self, data: &[u8], lent: &mut [u8]) -> Written {
        packet_writing::write(
            lent,
            self.link == 1,
            self.version,
            self.application,
            self.number,
            self.kind,
            data,
        )
    }
}

// That packet, and its line.
fn put_packet<O: Room>(out: &mut O, given: Packet, data: &[u8], lent: &mut [u8])
    requires { (length lent.old ≤ most_packet_room) × (most_packet_text ≤ left (O.held out.old)) }
    ensures upper_bound { left (O.held out.old) ≤ left (O.held out.new) + most_packet_text }
    ensures text_bound { length (O.held out.new).text ≤ length (O.held out.old).text + most_packet_text }
    ensures same { room_of (O.held out.new) ≡ room_of (O.held out.old) }
{
    let made = given.write(data, lent);
    text::put_decimal(out, u64::from(made.answer));
    text::put_written(out, lent, made.written);
    text::put(out, b"\n");
}

// The packet at the front of s, if it is there whole, and how many bytes it takes.
pub fn packet_at<O: Room>(s: &[u8], out: &mut O) -> Option<usize>
    requires { most_packet_text ≤ left (O.held out.old) }
    ensures text { left (O.held out.old) ≤ left (O.held out.new) + most_packet_text }
    ensures len { length (O.held out.new).text ≤ length (O.held out.old).text + most_packet_text }
    ensures same { room_of (O.held out.new) ≡ room_of (O.held out.old) }
    ensures used { IfSome result (λ used. used ≤ length s.now) }
{
    let (fields, rest) = s.split_at_checked(FIELDS_SIZE)?;
    let given = packet_from(fields);
    let data = rest.get(..usize::from(given.size))?;
    let mut lent = [text::BEFORE; MOST_ROOM];
    put_packet(out, given, data, &mut lent[..usize::from(given.room)]);
    Some(FIELDS_SIZE + data.len())
}
