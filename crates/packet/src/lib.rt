// Packets on a link: the header's fields and its check, and the user data behind it.
#![tactic(auto)]

ghost use Rattle.std.specs.Prelude.{◌≡◌, ◌+◌, ◌≤◌, length};
ghost use Rattle.packet.specs.Sizes.{packet_header_size, least_length, packet_size, checked_bytes};
ghost use Rattle.packet.specs.Check.{byte_in};
ghost use Rattle.packet.specs.Packet.{packet_header_at, check_at, user_data_at, user_data_place_at, flag_of};

// PKT-LAYOUT: the bytes after this field, version, application type, transport number, N/R flag, packet type, check.
// Stays: flag and type as they stand on the wire, any byte: 304 and 305 judge them (`link_rows`, `class_d_rows` of links).
#[derive(Clone, Copy, PartialEq, Eq, Debug)]
pub struct Header {
    pub length: u16,
    pub version: u8,
    pub application: u8,
    pub number: u16,
    pub flag: u8,
    pub kind: u8,
    pub check: u16,
}

// PKT-LEN: a header has its length's own bytes, and those that the least length counts.
pub const LENGTH_SIZE: usize = 2;

pub const PACKET_HEADER_SIZE: usize = 10;

pub const LEAST_LENGTH: u16 = 8;

pub const MOST_USER_DATA: usize = 65000;

pub const MOST_LENGTH: u16 = LEAST_LENGTH + MOST_USER_DATA as u16;

pub const MOST_PACKET: usize = MOST_LENGTH as usize + LENGTH_SIZE;

// PKT-FLAG.
const NORMAL_FLAG: u8 = 1;

const REDUNDANT_FLAG: u8 = 0;

// PKT-CHECK: over so many bytes; the register at first.
pub const CHECKED_BYTES: usize = 8;

const ALL_ONES: u16 = 0xFFFF;

// PKT-CHECK: a byte goes into the register, its eight bits at once. Bit k of `taken` says whether the polynomial is taken away as bit k of
// the byte goes in; where it is, its term x^12 asks for it once more four bits later. Its terms x^0, x^5 and x^12, at the bits 15, 10 and 3
// at first, come down by 7 - k: to 8 and 3 above bit k, and to 4 below it.
fn byte_in(register: u16, byte: u8) -> u16
    ensures { result ≡ byte_in register byte }
{
    let asked = (register % 256) as u8 ^ byte;
    let taken = u16::from(asked ^ (asked << 4));
    (register >> 8) ^ (taken << 8) ^ (taken << 3) ^ (taken >> 4)
}

// PKT-CHECK: the check of the bytes from `at` on that it covers.
pub fn check_at(s: &[u8], at: usize) -> u16
    requires { at + checked_bytes ≤ length s.now }
    ensures { result ≡ check_at s.now at }
{
    s[at..at + CHECKED_BYTES]
        .iter()
        .fold(ALL_ONES, |register, byte| byte_in(register, *byte))
}

// PKT-LAYOUT: the header of the packet at a place.
pub fn packet_header_at(s: &[u8], at: usize) -> Header
    requires { at + packet_header_size ≤ length s.now }
    ensures { result ≡ packet_header_at s.now at }
{
    Header {
        length: field::number_at(s, at),
        version: field::number_at(s, at + 2),
        application: field::number_at(s, at + 3),
        number: field::number_at(s, at + 4),
        flag: field::number_at(s, at + 6),
        kind: field::number_at(s, at + 7),
        check: field::number_at(s, at + 8),
    }
}

// PKT-FLAG: the N/R flag of a link.
pub fn flag_of(normal: bool) -> u8
    ensures { result ≡ flag_of normal }
{
    if normal { NORMAL_FLAG } else { REDUNDANT_FLAG }
}

// PKT-LAYOUT: the user data of the whole packet at a place, whose length is at hand.
pub fn user_data_at(s: &[u8], at: usize, counted: u16) -> &[u8]
    requires { (counted ≡ (packet_header_at s.now at).length) × (least_length ≤ counted) × (at + packet_size counted ≤ length s.now) }
    ensures { (result.now ≡ user_data_at s.now at) × (result.ref_ptr ≡ user_data_place_at s.entry at) }
{
    let start = at + PACKET_HEADER_SIZE;
    let end = at + (usize::from(counted) + LENGTH_SIZE);
    &s[start..end]
}
