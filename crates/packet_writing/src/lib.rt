// Writing a packet for a link: its bytes at the front of an out buffer, or why there are none.
#![tactic(auto)]

ghost use Rattle.std.specs.Prelude.{◌≡◌, ◌+◌, ◌≤◌, length};
ghost use Rattle.std.proofs.lemmas.List.Edits.{sets};
ghost use Rattle.packet.specs.Sizes.{packet_header_size, most_user_data, checked_bytes};
ghost use Rattle.packet_writing.specs.Writing.{refusal_number, answer_of, checked_row, packet_bytes, write_answer, packet_written, bytes_written};

use packet::{CHECKED_BYTES, LEAST_LENGTH, MOST_USER_DATA, PACKET_HEADER_SIZE};

// The answer to writing a packet, and how many bytes were written.
// Stays: the answer is 01's number, 0 or a refusal's, as `packet_written` in the contract of `write` has it.
#[derive(Clone, Copy, PartialEq, Eq, Debug)]
pub struct Written {
    pub answer: u16,
    pub written: usize,
}

// The fields that a caller gives.
// Stays: the type as the number that `write` is given, any byte: 311 says which is none of class D (`write_answer`).
#[derive(Clone, Copy)]
struct Fields {
    version: u8,
    application: u8,
    number: u16,
    kind: u8,
}

// Why a packet is not written.
#[derive(Clone, Copy, PartialEq, Eq, Debug)]
enum Refusal {
    NotClassD,
    TooLong,
    NoRoom,
}

impl Refusal {
    // PKT-311, PKT-312, PKT-313.
    fn number(self) -> u16
        ensures { result ≡ refusal_number self }
    {
        match self {
            Refusal::NotClassD => 311,
            Refusal::TooLong => 312,
            Refusal::NoRoom => 313,
        }
    }
}

// PKT-LAYOUT: the fields before the check, at the front of the buffer.
fn write_checked(out: &mut [u8], counted: u16, flag: u8, given: Fields)
    requires { checked_bytes ≤ length out.old }
    ensures { out.new ≡ sets out.old 0 (checked_row counted given.version given.application given.number flag given.kind) }
{
    field::write(out, 0, 2, u32::from(counted));
    field::write(out, 2, 1, u32::from(given.version));
    field::write(out, 3, 1, u32::from(given.application));
    field::write(out, 4, 2, u32::from(given.number));
    field::write(out, 6, 1, u32::from(flag));
    field::write(out, 7, 1, u32::from(given.kind));
}

// PKT-0: the packet's bytes, at the front of a buffer that has room for them.
fn write_packet(out: &mut [u8], normal: bool, given: Fields, data: &[u8])
    requires { (length «data».now ≤ most_user_data) × (packet_header_size + length «data».now ≤ length out.old) }
    ensures { let bytes = packet_bytes normal given.version given.application given.number given.kind «data».now in
        out.new ≡ sets out.old 0 bytes }
{
    let counted = LEAST_LENGTH + data.len() as u16;
    write_checked(out, counted, packet::flag_of(normal), given);
    let right = packet::check_at(out, 0);
    field::write(out, CHECKED_BYTES, 2, u32::from(right));
    field::copy(out, PACKET_HEADER_SIZE, data);
}

// PKT-ORDER: why a packet is not written into an out buffer of `room` bytes, the first reason of all.
fn refusal_of(room: usize, normal: bool, number: u16, kind: u8, data: &[u8]) -> Option<Refusal>
    ensures { answer_of result ≡ write_answer room number kind «data».now }
{
    if packet_types::not_class_d(normal, number, kind, data) {
        Some(Refusal::NotClassD)
    } else if MOST_USER_DATA < data.len() {
        Some(Refusal::TooLong)
    } else if room < PACKET_HEADER_SIZE + data.len() {
        Some(Refusal::NoRoom)
    } else {
        None
    }
}

// Writes a packet for the normal or the redundant link (PKT-0), or refuses it with 311, 312 or 313 and writes no byte (PKT-NONE).
// Stays: seven parameters, since README names them in this order.
pub fn write(
    out: &mut [u8],
    normal: bool,
    version: u8,
    application: u8,
    number: u16,
    kind: u8,
    data: &[u8],
) -> Written
    ensures { let room = length out.old in let user_data = «data».now in
        (result ≡ packet_written room number kind user_data)
        × (out.new ≡ sets out.old 0 (bytes_written room normal version application number kind user_data)) }
{
    if let Some(refusal) = refusal_of(out.len(), normal, number, kind, data) {
        return Written {
            answer: refusal.number(),
            written: 0,
        };
    }
    let given = Fields {
        version,
        application,
        number,
        kind,
    };
    write_packet(out, normal, given, data);
    Written {
        answer: 0,
        written: PACKET_HEADER_SIZE + data.len(),
    }
}
