// What is said of an error on standard error: a name, a colon and the reason.
ghost use Rattle.std.specs.Prelude.{◌≡◌, ◌≤◌, length, take};

use crate::say;
use arrayvec::ArrayVec;
use std::io;
use std::io::Write;

// More bytes than the reason of an error has.
const MOST_REASON: usize = 256;

// What stands before the number of an error in its text.
const NUMBER: &[u8] = b" (os error ";

// The text of an error without its number.
fn without_number(text: &[u8]) -> &[u8]
    ensures front { result.now ≡ take (length result.now) text.now }
    ensures upper_bound { length result.now ≤ length text.now }
{
    match text.windows(NUMBER.len()).position(|part| part == NUMBER) {
        Some(size) => &text[..size],
        None => text,
    }
}

// Says a line on standard error: what failed, and why.
pub fn fail<E: Write>(err: &mut E, what: &[u8], why: io::Error) {
    let mut reason = ArrayVec::<u8, MOST_REASON>::new();
    let _ = write!(reason, "{why}");
    say(err, what);
    say(err, b": ");
    say(err, without_number(reason.as_slice()));
    say(err, b"\n");
}
