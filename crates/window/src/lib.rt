// A window on a file: a bounded buffer that is refilled, so that a file of any length is taken a part at a time.
#![tactic(auto)]

mod at_hand;
mod input;

ghost use Rattle.std.specs.Prelude.{◌≡◌, false, ◌+◌, ◌-◌, ◌≤◌, ◌<◌, length, take};
ghost use Rattle.window.specs.Answers.{Moved};
ghost use Rattle.window.specs.Window.{empty_window, Within, unread, low_of, used_of, no_read, ended_by, failed_by, as_it_was};
ghost use Rattle.window.specs.Window.{FilledFrom, RefilledFrom, ToppedUp};

pub use at_hand::{AtHand, Lent};
pub use input::Input;
use std::env::FillError;
use std::fs::Files;
use std::io::{ErrorKind, Write};
use std::{fs, io};

// What the system calls an argument that is missing, and one that has no room.
const NO_ARGUMENT: i32 = 22;

const TOO_LONG: i32 = 36;

// The most bytes of a file's name.
const MOST_NAME: usize = 4096;

// The bytes of the buffer from `from` to `to` are read and not used up; `ended` says that the file has no more.
#[derive(Clone, Copy)]
pub struct Window {
    pub from: usize,
    pub to: usize,
    pub ended: bool,
}

// A read: how many bytes it had room for, and what it answered. No read is one that had room for none.
#[derive(Clone, Copy)]
pub struct Read {
    pub room: usize,
    pub got: io::Result<usize>,
}

// A window after a refill, and the last read.
#[derive(Clone, Copy)]
pub struct Refilled {
    pub window: Window,
    pub last: Read,
}

// How far a buffer is filled, and the last read.
#[derive(Clone, Copy)]
struct Filled {
    to: usize,
    last: Read,
}

impl Read {
    // No read was made.
    fn none() -> Read
        ensures { result ≡ no_read }
    {
        Read {
            room: 0,
            got: Ok(0),
        }
    }

    // Whether the file has ended: a read with room gave no byte.
    #[tactic(auto, unfolding(crate::specs::Window::ended_by))]
    fn ended(self) -> bool
        ensures { result ≡ ended_by self }
    {
        self.room != 0 && matches!(self.got, Ok(0))
    }
}

impl Window {
    pub fn empty() -> Window
        ensures { result ≡ empty_window }
    {
        Window {
            from: 0,
            to: 0,
            ended: false,
        }
    }

    // Whether it is to be refilled, for steps that look at `most` bytes at the most.
    #[tactic(auto, unfolding(crate::specs::Window::low_of))]
    pub fn low(self, most: usize) -> bool
        requires { self.from ≤ self.to }
        ensures { result ≡ low_of most self }
    {
        self.to - self.from < most && !self.ended
    }

    // So many of its bytes are used up.
    pub fn used(self, count: usize) -> Window
        requires { self.from + count ≤ self.to }
        ensures value { result ≡ used_of count self }
        ensures within { Within result self.to }
    {
        Window {
            from: self.from + count,
            ..self
        }
    }

    // The bytes that are left, of its buffer.
    pub fn unread(self, buffer: &[u8]) -> &[u8]
        requires { Within self (length buffer.now) }
        ensures { result.now ≡ unread buffer.now self }
    {
        &buffer[self.from..self.to]
    }
}

impl Refilled {
    // A window that is not refilled.
    pub fn as_it_was(window: Window) -> Refilled
        ensures { result ≡ as_it_was window }
    {
        Refilled {
            window,
            last: Read::none(),
        }
    }
}

// One read behind the first `at` bytes, which stay.
fn read_behind<R: io::Read>(file: &mut R, buffer: &mut [u8], at: usize) -> Read
    requires { at ≤ length buffer.old }
    ensures { (result.room ≡ length buffer.old - at) × Moved result.room result.got × (take at buffer.new ≡ take at buffer.old) }
{
    let room = buffer.len() - at;
    Read {
        room,
        got: file.read(&mut buffer[at..]),
    }
}

// Reads until the buffer is full, the file ends or a read fails.
fn fill<R: io::Read>(file: &mut R, buffer: &mut [u8], at: usize) -> Filled
    requires { at ≤ length buffer.old }
    ensures { FilledFrom buffer.old at buffer.new result }
{
    let mut to = at;
    let mut last = Read::none();
    // Stays: a while, since a read says how far it goes on.
    while to < buffer.len() {
        last = read_behind(file, buffer, to);
        let count = last.got.unwrap_or(0);
        if count == 0 {
            return Filled { to, last };
        }
        to += count;
    }
    Filled { to, last }
}

// Moves what is left to the front of the buffer and reads more behind it.
// Stays: a buffer and its window, no `Input`: recording's `Progress`, of which cut's theorems speak, has two windows and no buffer.
pub fn refill<R: io::Read>(file: &mut R, buffer: &mut [u8], window: Window) -> Refilled
    requires { Within window (length buffer.old) }
    ensures { RefilledFrom buffer.old window buffer.new result }
{
    buffer.copy_within(window.from..window.to, 0);
    let filled = fill(file, buffer, window.to - window.from);
    Refilled {
        window: Window {
            from: 0,
            to: filled.to,
            ended: filled.last.ended(),
        },
        last: filled.last,
    }
}

// Tops a window up for steps that look at `most` bytes at the most: refills it where it is low, and says why where its file can't be read.
pub fn topped_up<R: io::Read, E: Write>(
    file: &mut R,
    err: &mut E,
    name: &[u8],
    buffer: &mut [u8],
    window: Window,
    most: usize,
) -> Refilled
    requires { Within window (length buffer.old) × (most ≤ length buffer.old) }
    ensures topped_up { ToppedUp most buffer.old window buffer.new result }
    ensures within { Within result.window (length buffer.old) }
    ensures window_value { failed_by result.last ≡ false → low_of most result.window ≡ false }
{
    if !window.low(most) {
        return Refilled::as_it_was(window);
    }
    let refilled = refill(file, buffer, window);
    if let Err(why) = refilled.last.got {
        text::fail(err, name, why);
    }
    refilled
}

// Why an argument can't be read.
fn no_argument(why: FillError) -> io::Error {
    match why {
        FillError::NotPresent => io::Error::from_raw_os_error(NO_ARGUMENT),
        FillError::TooLong => io::Error::from_raw_os_error(TOO_LONG),
    }
}

// Opens the file that an argument names.
fn opened<R: Files>(rt: &R, name: Result<&[u8], FillError>) -> io::Result<R::File> {
    let name = name.map_err(no_argument)?;
    let Ok(path) = str::from_utf8(name) else {
        return Err(io::Error::from(ErrorKind::InvalidFilename));
    };
    fs::open(rt, path)
}

// The name of a file, or where that is empty or could not be read the word that stands for it.
fn name_or<'a>(name: Result<&'a [u8], FillError>, word: &'a [u8]) -> &'a [u8]
    ensures { 0 < length word.now → 0 < length result.now }
{
    match name {
        Ok(name) if !name.is_empty() => name,
        _ => word,
    }
}

// Opens the file that an argument names, as the argument was read; or says why it can't, and gives none.
pub fn open_file<R: Files, E: Write>(
    rt: &R,
    err: &mut E,
    name: Result<&[u8], FillError>,
    word: &[u8],
) -> Option<R::File> {
    match opened(rt, name) {
        Ok(file) => Some(file),
        Err(why) => {
            text::fail(err, name_or(name, word), why);
            None
        }
    }
}

// A program that works on the bytes of one file.
pub trait WorksOnAFile {
    // What it says on standard error where it has more arguments than the file's name.
    const USAGE: &'static [u8];

    // Its work on an open file, by whose name a fault is told.
    fn work<R: io::Read>(rt: &HostRuntime, file: &mut R, name: &[u8])
        requires { 0 < length name.now };
}

// Runs it on the file that its only argument names, or on standard input where there is none.
pub fn run<P: WorksOnAFile>(rt: &HostRuntime) {
    let mut err = rt.stderr();
    match text::arg_count(rt) {
        0 | 1 => P::work(rt, &mut rt.stdin(), b"standard input"),
        2 => {
            let mut room = [0u8; MOST_NAME];
            let name = text::arg(rt, 1, &mut room);
            if let Some(mut file) = open_file(rt, &mut err, name, b"FILE") {
                P::work(rt, &mut file, name_or(name, b"FILE"));
            }
        }
        _ => text::say(&mut err, P::USAGE),
    }
}

#[cfg(test)]
mod tests {
    use super::*;

    // What is left stands at the front, and behind it as many bytes as there are and the buffer holds.
    #[test]
    fn refills_behind_what_is_left(rt: HostRuntime) {
        let mut file: &[u8] = b"defg";
        let mut buffer = *b"abc??";
        let window = Window {
            from: 1,
            to: 3,
            ended: false,
        };
        let refilled = refill(&mut file, &mut buffer, window);
        assert!(rt;
            buffer == *b"bcdef",
            "what was left, and the file's first bytes"
        );
        assert!(rt;
            refilled.window.from == 0 && refilled.window.to == 5 && !refilled.window.ended,
            "the window"
        );
        assert!(rt;
            refilled.last.room == 3 && matches!(refilled.last.got, Ok(3)),
            "the last read"
        );
    }

    // An input gives the bytes of its file in their order, each once.
    #[test]
    fn tops_up_an_input(rt: HostRuntime) {
        let mut file: &[u8] = b"abcdef";
        let mut err: &mut [u8] = &mut [];
        let mut input: Input<4> = Input::empty();
        assert!(rt;
            input.low(3) && input.top_up(&mut file, &mut err, b"file", 3).got.is_ok(),
            "it is filled"
        );
        assert!(rt; input.unread() == b"abcd".as_slice(), "the first bytes");
        input.use_up(2);
        assert!(rt;
            input.low(3) && input.top_up(&mut file, &mut err, b"file", 3).got.is_ok(),
            "it is filled again"
        );
        assert!(rt;
            input.unread() == b"cdef".as_slice(),
            "what was left, and what follows"
        );
    }
}
