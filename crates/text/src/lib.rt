// Text in a room: numbers, offsets, ages and bytes, one word after the other; room for it, and writing it.
// And the words of a command line, and what is said of an error.
#![tactic(auto)]

mod arguments;
mod front;
mod reason;
mod room;

ghost use Rattle.std.specs.Prelude.{◌≡◌, ◌++◌, ◌+◌, ◌*◌, ◌≤◌, ◌<◌, length, drop, OnOk};
ghost use Rattle.std.specs.Io.KnownBytes.{Appends};
ghost use Rattle.text.specs.Text.{put, left, room_of, room_for, RoomMade, held_of, chosen_of, digit, most_digits, decimal_in, decimal_of};
ghost use Rattle.text.specs.Line.{number_word, end_of, centred_word, digits_of, bytes_word, all_before, written_words};
ghost use Rattle.text.specs.Line.{most_number, most_end, most_signed, most_bytes_word, most_written_words};

pub use arguments::{arg, arg_count};
use arrayvec::ArrayVec;
use clock::Centred;
pub use front::Front;
pub use reason::fail;
pub use room::{Holds, Part, Room};
use std::io;
use std::io::Write;

// The most digits of a number, and the most bytes of one after a space.
pub const MOST_DIGITS: usize = 20;

pub const MOST_NUMBER: usize = 1 + MOST_DIGITS;

// What each byte of a lent buffer is before it is written to.
pub const BEFORE: u8 = 0xA5;

// How many bytes have their digits made at once.
const AT_ONCE: usize = 32;

const DIGITS_AT_ONCE: usize = 2 * AT_ONCE;

// Stays: the room asked for, in each contract: it is another for each word, and no fact of a text.

// Puts bytes behind a text.
#[tactic(auto, using(crate::proofs::Puts::left_put), unfolding(crate::specs::Text::put, crate::specs::Text::room_of))]
pub fn put<O: Room>(out: &mut O, s: &[u8])
    requires { length s.now ≤ left (O.held out.old) }
    ensures put { O.held out.new ≡ put s.now (O.held out.old) }
    ensures left { left (O.held out.new) + length s.now ≡ left (O.held out.old) }
    ensures len { length (O.held out.new).text ≡ length (O.held out.old).text + length s.now }
    ensures same { room_of (O.held out.new) ≡ room_of (O.held out.old) }
{
    out.put(s);
}

// Puts a number in decimal behind a text, in at most so many digits.
// Stays: digit by digit: with the kit's `itoa` a replay of 60 MB took 0.21 to 0.30 s of user time, and 0.14 to 0.19 s as it is.
#[tactic(auto, using(crate::proofs::Puts::left_put, crate::proofs::Puts::room_put))]
fn put_decimal_in<O: Room>(out: &mut O, n: u64, most: usize)
    requires { most ≤ left (O.held out.old) }
    ensures put { O.held out.new ≡ put (decimal_in most n) (O.held out.old) }
    ensures upper_bound { left (O.held out.old) ≤ left (O.held out.new) + most }
    ensures text_bound { length (O.held out.new).text ≤ length (O.held out.old).text + most }
    ensures same { room_of (O.held out.new) ≡ room_of (O.held out.old) }
{
    if most == 0 {
        return;
    }
    if n < 10 {
        out.put_byte(digit(n as u8));
    } else {
        put_decimal_in(out, n / 10, most - 1);
        out.put_byte(digit((n % 10) as u8));
    }
}

// Puts a number in decimal behind a text.
#[tactic(auto, using(crate::proofs::Puts::put_put))]
pub fn put_decimal<O: Room>(out: &mut O, n: u64)
    requires { most_digits ≤ left (O.held out.old) }
    ensures put { O.held out.new ≡ put (decimal_of n) (O.held out.old) }
    ensures upper_bound { left (O.held out.old) ≤ left (O.held out.new) + most_digits }
    ensures len { length (O.held out.new).text ≤ length (O.held out.old).text + most_digits }
    ensures same { room_of (O.held out.new) ≡ room_of (O.held out.old) }
{
    put_decimal_in(out, n, MOST_DIGITS);
}

// A number after a space: one of one digit, as most are, is put at once with it.
#[tactic(auto, using(crate::proofs::Puts::put_put))]
pub fn put_number<O: Room>(out: &mut O, n: u64)
    requires { most_number ≤ left (O.held out.old) }
    ensures put { O.held out.new ≡ put (number_word n) (O.held out.old) }
    ensures upper_bound { left (O.held out.old) ≤ left (O.held out.new) + most_number }
    ensures len { length (O.held out.new).text ≤ length (O.held out.old).text + most_number }
    ensures same { room_of (O.held out.new) ≡ room_of (O.held out.old) }
{
    if n < 10 {
        put(out, &[b' ', digit(n as u8)]);
    } else {
        put(out, b" ");
        put_decimal(out, n);
    }
}

// TRACE-13, CUT-1: the last line.
#[tactic(auto, using(crate::proofs::Puts::put_put))]
pub fn put_end<O: Room>(out: &mut O, count: u64)
    requires { most_end ≤ left (O.held out.old) }
    ensures put { O.held out.new ≡ put (end_of count) (O.held out.old) }
    ensures upper_bound { left (O.held out.old) ≤ left (O.held out.new) + most_end }
    ensures len { length (O.held out.new).text ≤ length (O.held out.old).text + most_end }
    ensures same { room_of (O.held out.new) ≡ room_of (O.held out.old) }
{
    put(out, b"end");
    put_number(out, count);
    put(out, b"\n");
}

// TRACE-13: an age or an offset, or another number of theirs, after a space, and its size after a minus where it is negative.
#[tactic(auto, using(crate::proofs::Puts::put_put))]
pub fn put_centred<O: Room, T: Centred>(out: &mut O, centred: T)
    requires { most_signed ≤ left (O.held out.old) }
    ensures put { O.held out.new ≡ put (centred_word (T.number centred)) (O.held out.old) }
    ensures upper_bound { left (O.held out.old) ≤ left (O.held out.new) + most_signed }
    ensures len { length (O.held out.new).text ≤ length (O.held out.old).text + most_signed }
    ensures same { room_of (O.held out.new) ≡ room_of (O.held out.old) }
{
    if centred.negative() {
        put(out, b" -");
    } else {
        put(out, b" ");
    }
    put_decimal(out, u64::from(centred.size()));
}

// A digit of a number below 16.
fn digit(n: u8) -> u8
    requires { n < 16 }
    ensures { result ≡ digit n }
{
    if n < 10 { b'0' + n } else { b'A' + (n - 10) }
}

// Two digits for each of so many bytes.
// Stays: the high and the low digits by themselves first: each is then made for many bytes at once.
fn digits_of(s: &[u8; AT_ONCE]) -> [u8; DIGITS_AT_ONCE]
    ensures { result ≡ digits_of s.now }
{
    let mut high = [0; AT_ONCE];
    let mut low = [0; AT_ONCE];
    for (i, b) in s.iter().enumerate() {
        high[i] = digit(b / 16);
        low[i] = digit(b % 16);
    }
    let mut digits = [0; DIGITS_AT_ONCE];
    for place in 0..AT_ONCE {
        digits[2 * place] = high[place];
        digits[2 * place + 1] = low[place];
    }
    digits
}

// Bytes, two digits each.
// Stays: so many bytes at once, by way of an array: with a push for each digit `single` took 1.8 times as long on steps.
fn put_digits<O: Room>(out: &mut O, s: &[u8])
    requires { 2 * length s.now ≤ left (O.held out.old) }
    ensures put { O.held out.new ≡ put (digits_of s.now) (O.held out.old) }
    ensures upper_bound { left (O.held out.old) ≤ left (O.held out.new) + 2 * length s.now }
    ensures text_bound { length (O.held out.new).text ≤ length (O.held out.old).text + 2 * length s.now }
    ensures same { room_of (O.held out.new) ≡ room_of (O.held out.old) }
{
    let mut rest = s;
    while let Some((part, behind)) = rest.split_first_chunk::<AT_ONCE>() {
        put(out, &digits_of(part));
        rest = behind;
    }
    let mut last = [0; AT_ONCE];
    last[..rest.len()].copy_from_slice(rest);
    put(out, &digits_of(&last)[..2 * rest.len()]);
}

// Bytes after a space; a dash for none.
#[tactic(auto, using(crate::proofs::Puts::put_put))]
pub fn put_bytes<O: Room>(out: &mut O, s: &[u8])
    requires { most_bytes_word (length s.now) ≤ left (O.held out.old) }
    ensures put { O.held out.new ≡ put (bytes_word s.now) (O.held out.old) }
    ensures upper_bound { left (O.held out.old) ≤ left (O.held out.new) + most_bytes_word (length s.now) }
    ensures len { length (O.held out.new).text ≤ length (O.held out.old).text + most_bytes_word (length s.now) }
    ensures same { room_of (O.held out.new) ≡ room_of (O.held out.old) }
{
    if s.is_empty() {
        put(out, b" -");
    } else {
        put(out, b" ");
        put_digits(out, s);
    }
}

// Whether the bytes of a lent buffer past those written are still what stood there before.
// Stays: a loop, and no `all`, with which `single` took 1.8 times as long on messages.
fn all_before(rest: &[u8]) -> bool
    ensures { result ≡ all_before rest.now }
{
    for b in rest {
        if *b != BEFORE {
            return false;
        }
    }
    true
}

// The bytes written at the start of a lent buffer, after a space, and where another byte of it changed the word for that.
#[tactic(auto, using(crate::proofs::Puts::put_put))]
pub fn put_written<O: Room>(out: &mut O, lent: &[u8], written: usize)
    requires { most_written_words (length lent.now) ≤ left (O.held out.old) }
    ensures put { O.held out.new ≡ put (written_words lent.now written) (O.held out.old) }
    ensures upper_bound { left (O.held out.old) ≤ left (O.held out.new) + most_written_words (length lent.now) }
    ensures len { length (O.held out.new).text ≤ length (O.held out.old).text + most_written_words (length lent.now) }
    ensures same { room_of (O.held out.new) ≡ room_of (O.held out.old) }
{
    let (first, rest) = lent.split_at(written.min(lent.len()));
    put_bytes(out, first);
    if !all_before(rest) {
        put(out, b" changed");
    }
}

// Writes a text to standard output, and says on standard error why where it can't be.
pub fn written<W: Write, E: Write>(to: &mut W, err: &mut E, text: &[u8]) -> io::Result<()>
    ensures { OnOk result (Appends (W.contents to.old) (W.contents to.new) text.now) }
{
    let written = to.write_all(text);
    if let Err(why) = written {
        fail(err, b"standard output", why);
    }
    written
}

// Makes room for so many bytes behind a text: where there is not enough, the text is written, and an empty one left.
pub fn make_room_in<W: Write, E: Write, O: Holds>(
    to: &mut W,
    err: &mut E,
    out: &mut O,
    most: usize,
) -> io::Result<()>
    requires { most ≤ (O.held out.old).size }
    ensures value { O.held out.new ≡ room_for most (O.emptied out.old) (O.held out.old) }
    ensures text { (O.held out.new).text ≡ held_of most (O.held out.old).size (O.held out.old).text }
    ensures most_in_bounds { most ≤ left (O.held out.new) }
    ensures same { room_of (O.held out.new) ≡ room_of (O.held out.old) }
    ensures writes { OnOk result (RoomMade (W.contents to.old) (W.contents to.new) (O.held out.old).text (O.held out.new).text) }
{
    if most <= out.left() {
        return Ok(());
    }
    let written = written(to, err, out.text());
    out.empty();
    written
}

// The same in an array of so many bytes.
#[tactic(auto, unfolding(crate::specs::Text::left))]
pub fn make_room<W: Write, E: Write, const N: usize>(
    to: &mut W,
    err: &mut E,
    out: &mut ArrayVec<u8, N>,
    most: usize,
) -> io::Result<()>
    requires { most ≤ N }
    ensures value { out.new.items ≡ held_of most N out.old.items }
    ensures most_in_bounds { length out.new.items + most ≤ N }
    ensures writes { OnOk result (RoomMade (W.contents to.old) (W.contents to.new) out.old.items out.new.items) }
{
    let made = make_room_in(to, err, out, most);
    // An array holds no more than its size, as the kit says of what is left.
    let _within = out.remaining_capacity();
    made
}

// Says these lines on standard error.
pub fn say<E: Write>(err: &mut E, line: &[u8]) {
    let _ = err.write_all(line);
}

// What a word stands for, in a list of words: what the first of them that is the same word stands for.
pub fn chosen_of<T: Copy>(word: &[u8], words: &[(&[u8], T)]) -> Option<T>
    ensures { result ≡ chosen_of word.now words.now }
{
    for (other, meaning) in words {
        if word == *other {
            return Some(*meaning);
        }
    }
    None
}

#[cfg(test)]
mod tests {
    use super::*;

    // A text goes behind what the writer has.
    #[test]
    fn prints_the_first_bytes(rt: HostRuntime) {
        let mut to = ArrayVec::<u8, 8>::new();
        let mut err = ArrayVec::<u8, 8>::new();
        assert!(rt;
            written(&mut to, &mut err, &b"abcd"[..3]).is_ok()
                && written(&mut to, &mut err, &b"ef"[..1]).is_ok(),
            "all is written"
        );
        assert!(rt;
            to.as_slice() == b"abce".as_slice() && err.is_empty(),
            "one text behind the other, and nothing is said"
        );
    }

    // A text is written where more has no room behind it, and only there.
    #[tactic(auto, unfolding(crate::specs::Text::left))]
    #[test]
    fn makes_room_where_there_is_none(rt: HostRuntime) {
        let mut to = ArrayVec::<u8, 8>::new();
        let mut err = ArrayVec::<u8, 8>::new();
        let mut out = ArrayVec::<u8, 4>::new();
        put(&mut out, b"ab");
        assert!(rt;
            make_room(&mut to, &mut err, &mut out, 2).is_ok()
                && to.is_empty()
                && out.as_slice() == b"ab".as_slice(),
            "there is room"
        );
        assert!(rt;
            make_room(&mut to, &mut err, &mut out, 3).is_ok()
                && to.as_slice() == b"ab".as_slice()
                && out.is_empty(),
            "there is none"
        );
    }

    // The first of the words that is the same says what a word stands for; a word that is none of them stands for nothing.
    #[test]
    fn chooses_the_same_word(rt: HostRuntime) {
        let words = [
            (b"steps".as_slice(), 1),
            (b"packets".as_slice(), 2),
            (b"steps".as_slice(), 3),
        ];
        assert!(rt;
            chosen_of(b"steps", &words) == Some(1) && chosen_of(b"packets", &words) == Some(2),
            "each word"
        );
        assert!(rt;
            chosen_of(b"step", &words).is_none() && chosen_of(b"", &words).is_none(),
            "no word"
        );
    }
}
