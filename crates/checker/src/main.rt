// checker [FILE]: checks a recorder file, or standard input where no file is named: the verdict, and for a person where it stopped and why.
#![tactic(auto)]

ghost use Rattle.recorder_file.specs.Check.{SaidOfTheFile};

use arrayvec::ArrayVec;
use recorder_file::{MOST_SAID, Progress};
use std::io::{Read, Write};
use trace::ROOM;
use window::{Input, WorksOnAFile};

// A piece of a file has at most so many bytes.
const LARGE_BUFFER: usize = 65536;

// More pieces than any run takes.
const MOST_PIECES: u64 = 0x4000_0000_0000;

// The verdict to standard output, and what a person is told to standard error: the out buffer holds what is said of some bytes
// (`SaidOfTheFile`). In `pieces::run`'s proof these are the bytes that were read, but no contract can say what is read from a file or
// written to one: that the two writes are these is seen in these lines, and by the tests.
fn finish<W: Write, E: Write>(to: &mut W, err: &mut E, said: &[u8])
    requires { SaidOfTheFile said.now }
{
    let (line, told) = said.split_at(recorder_file::line_size(said));
    let _ = text::written(to, err, line);
    text::say(err, told);
}

// The program.
struct Checker;

impl WorksOnAFile for Checker {
    const USAGE: &'static [u8] = b"checker: the argument is FILE, or none for standard input\n";

    // A piece at a time until the check stops: it says nothing before.
    fn work<R: Read>(rt: &HostRuntime, file: &mut R, name: &[u8]) {
        let mut to = rt.stdout();
        let mut err = rt.stderr();
        let mut input = Input::<LARGE_BUFFER>::empty();
        let mut lent = [0u8; ROOM];
        let mut out = ArrayVec::<u8, MOST_SAID>::new();
        let mut progress = Progress::start();
        let stopped = pieces::run(
            &mut progress,
            file,
            &mut to,
            &mut err,
            name,
            &mut input,
            &mut lent,
            &mut out,
            MOST_PIECES,
        );
        if stopped.is_some() {
            finish(&mut to, &mut err, out.as_slice());
        }
    }
}

fn main(rt: HostRuntime) {
    window::run::<Checker>(&rt);
}
