// Messages inside: the six types of message (MSG-1 to MSG-6), and how bytes are taken apart.
#![tactic(auto)]

ghost use Rattle.std.specs.Prelude.{◌≡◌, ◌+◌, ◌^◌, ◌<◌, ◌≤◌, length};
ghost use Rattle.field.specs.Row.{width_of};
ghost use Rattle.message.specs.Table.{header_size, offset_size, message_row, table_of, lists, total_of};
ghost use Rattle.message.specs.Layout.{widths_of, empty_tail, period_tail, offsets_tail, check_tail, data_tail, offsets_from};
ghost use Rattle.message.specs.Read.{message_header_of, offset_pair_at, tail_of, data_of, data_place};
ghost use Rattle.message.specs.Read.{later_stamp, check_over, whole_of, parsed_of};

use clock::{Count, Offset};

// The types, by their numbers: MSG-1 to MSG-6.
// Stays: 01 names a match on message type numbers (FORM-7), and a header holds any byte that was read, also of no type.
pub const OFFSET_START: u8 = 1;

pub const OFFSET_ANSW1: u8 = 2;

pub const OFFSET_ANSW2: u8 = 3;

pub const OFFSET_EST: u8 = 4;

pub const OFFSET_END: u8 = 5;

pub const APPLICATION: u8 = 6;

// How many bytes each message begins with (MSG-HEAD).
pub const HEADER_SIZE: usize = 15;

// The totals of OffsetStart and OffsetAnsw1, of OffsetEst and of OffsetEnd.
pub const START_SIZE: usize = 19;

pub const EST_SIZE: usize = 25;

pub const END_SIZE: usize = 16;

// The most bytes of a message (MSG-TOTAL), and of its application data.
pub const MOST_MESSAGE: usize = 1000;

pub const MOST_DATA: usize = 985;

// MSG-SIGN: an offset's sign and magnitude; MSG-4: min stands behind the header, max behind min.
pub const OFFSET_SIZE: usize = 5;

pub const MAX_AT: usize = HEADER_SIZE + OFFSET_SIZE;

// What each message begins with (MSG-HEAD).
#[derive(Clone, Copy)]
pub struct Header {
    pub kind: u8,
    pub number: u16,
    pub stamp: Count,
    pub last_peer_stamp: Count,
    // Own count at the arrival of the message with that stamp.
    pub arrival: Count,
}

// What a message has after its header; data is how many bytes of application data. What its type does not have is 0
// (MSG-FIELDS).
#[derive(Clone, Copy)]
pub struct Tail {
    pub period: u32,
    pub min: Offset,
    pub max: Offset,
    pub check: u8,
    pub data: usize,
}

// A message with its fields; of application data it has the count, and the bytes are lent beside it.
#[derive(Clone, Copy)]
pub struct Message {
    pub header: Header,
    pub tail: Tail,
}

// What stands after the header, by the type's row.
#[derive(Clone, Copy)]
pub enum After {
    Period,
    Nothing,
    Offsets,
    Check,
    Data,
}

// A row of the table of types, with the least and the most total.
#[derive(Clone, Copy)]
pub struct Listed {
    pub after: After,
    pub least: usize,
    pub most: usize,
}

// MSG-FIELDS: the tail of a type that has nothing after its header.
pub fn empty_tail() -> Tail
    ensures { result ≡ empty_tail }
{
    Tail {
        period: 0,
        min: Offset(0),
        max: Offset(0),
        check: 0,
        data: 0,
    }
}

pub fn period_tail(period: u32) -> Tail
    ensures { result ≡ period_tail period }
{
    Tail {
        period,
        ..empty_tail()
    }
}

pub fn offsets_tail(min: Offset, max: Offset) -> Tail
    ensures { result ≡ offsets_tail min max }
{
    Tail {
        min,
        max,
        ..empty_tail()
    }
}

pub fn check_tail(check: u8) -> Tail
    ensures { result ≡ check_tail check }
{
    Tail {
        check,
        ..empty_tail()
    }
}

pub fn data_tail(data: usize) -> Tail
    ensures { result ≡ data_tail «data» }
{
    Tail {
        data,
        ..empty_tail()
    }
}

// A row: what stands after the header, and the least and the most total.
fn message_row(after: After, least: usize, most: usize) -> Listed
    ensures { result ≡ message_row after least most }
{
    Listed { after, least, most }
}

// The table of types, MSG-1 to MSG-6. A type that is not listed has no total: none is at least 1 and at most 0.
#[tactic(auto, unfolding(crate::specs::Table::table_of))]
pub fn table_of(kind: u8) -> Listed
    ensures { result ≡ table_of kind }
{
    match kind {
        OFFSET_START => message_row(After::Period, START_SIZE, START_SIZE),
        OFFSET_ANSW1 => message_row(After::Period, START_SIZE, START_SIZE),
        OFFSET_ANSW2 => message_row(After::Nothing, HEADER_SIZE, HEADER_SIZE),
        OFFSET_EST => message_row(After::Offsets, EST_SIZE, EST_SIZE),
        OFFSET_END => message_row(After::Check, END_SIZE, END_SIZE),
        APPLICATION => message_row(After::Data, HEADER_SIZE, MOST_MESSAGE),
        _ => message_row(After::Nothing, 1, 0),
    }
}

impl Listed {
    // MSG-LISTED: whether the row lists this total.
    #[tactic(auto, unfolding(crate::specs::Table::lists))]
    pub fn lists(self, total: usize) -> bool
        ensures { result ≡ lists self total }
    {
        (self.least..=self.most).contains(&total)
    }

    // The total with n bytes of application data, where the type has them.
    #[tactic(auto, unfolding(crate::specs::Table::total_of))]
    pub fn total_of(self, n: usize) -> usize
        requires { (self.least + n) < 2 ^ 64 }
        ensures { result ≡ total_of self n }
    {
        if self.least < self.most {
            self.least + n
        } else {
            self.least
        }
    }
}

// MSG-HEAD: the first bytes, by their fields.
fn message_header_of(s: &[u8]) -> Header
    requires { header_size ≤ length s.now }
    ensures { result ≡ message_header_of s.now }
{
    Header {
        kind: field::number_at(s, 0),
        number: field::number_at(s, 1),
        stamp: Count(field::number_at(s, 3)),
        last_peer_stamp: Count(field::number_at(s, 7)),
        arrival: Count(field::number_at(s, 11)),
    }
}

// MSG-PAIR: both must be pairs of sign and magnitude.
fn offsets_from(min: Option<Offset>, max: Option<Offset>) -> Option<Tail>
    ensures { result ≡ offsets_from min max }
{
    Some(offsets_tail(min?, max?))
}

// MSG-SIGN: an offset, as sign and magnitude.
fn offset_pair_at(s: &[u8], at: usize) -> Option<Offset>
    requires { at + offset_size ≤ length s.now }
    ensures { result ≡ offset_pair_at s.now at }
{
    Offset::read(field::number_at(s, at), field::number_at(s, at + 1))
}

// What stands after the header.
fn tail_of(after: After, s: &[u8]) -> Option<Tail>
    requires { header_size + width_of (widths_of after) ≤ length s.now }
    ensures { result ≡ tail_of after s.now }
{
    match after {
        After::Period => Some(period_tail(field::number_at(s, HEADER_SIZE))),
        After::Nothing => Some(empty_tail()),
        After::Offsets => offsets_from(offset_pair_at(s, HEADER_SIZE), offset_pair_at(s, MAX_AT)),
        After::Check => Some(check_tail(field::number_at(s, HEADER_SIZE))),
        After::Data => Some(data_tail(s.len() - HEADER_SIZE)),
    }
}

// MSG-LATER: an OffsetStart with a later stamp.
#[tactic(auto, unfolding(crate::specs::Read::later_stamp))]
pub fn later_stamp(h: Header) -> bool
    ensures { result ≡ later_stamp h }
{
    h.kind == OFFSET_START && (h.last_peer_stamp != Count(0) || h.arrival != Count(0))
}

// MSG-CHECK: over 1.
#[tactic(auto, unfolding(crate::specs::Read::check_over))]
pub fn check_over(check: u8) -> bool
    ensures { result ≡ check_over check }
{
    1 < check
}

// A header and a tail of a listed total.
#[tactic(auto, unfolding(crate::specs::Read::whole_of))]
fn whole_of(header: Header, read: Option<Tail>) -> Option<Message>
    ensures { result ≡ whole_of header read }
{
    let tail = read?;
    if later_stamp(header) || check_over(tail.check) {
        None
    } else {
        Some(Message { header, tail })
    }
}

// The message that the bytes are; none where they are malformed.
#[tactic(auto, unfolding(crate::specs::Read::parsed_of))]
pub fn parse(s: &[u8]) -> Option<Message>
    ensures { result ≡ parsed_of s.now }
{
    if s.len() < HEADER_SIZE {
        return None;
    }
    let header = message_header_of(s);
    let row = table_of(header.kind);
    if row.lists(s.len()) {
        whole_of(header, tail_of(row.after, s))
    } else {
        None
    }
}

// MSG-DATA: the application data, as a part of the message.
#[tactic(auto, unfolding(crate::specs::Read::data_place))]
pub fn data_of(s: &[u8]) -> &[u8]
    ensures { (result.now ≡ data_of s.now) × (result.ref_ptr ≡ data_place s.entry) }
{
    if s.len() < HEADER_SIZE {
        &s[..0]
    } else {
        &s[HEADER_SIZE..]
    }
}
