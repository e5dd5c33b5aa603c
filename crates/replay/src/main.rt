// replay [FILE]: replays a trace, of standard input where no file is named, and prints a line for each record.
#![tactic(auto)]

ghost use Rattle.pieces.specs.Pieces.{PrintedWhole};
ghost use Rattle.replay_lines.specs.Replay.{replay};

use arrayvec::ArrayVec;
use replay_lines::Progress;
use std::io::{Read, Write};
use trace::ROOM;
use window::{Input, WorksOnAFile};

// A piece of a trace has at most so many bytes, and the out buffer has as many.
const LARGE_BUFFER: usize = 65536;

// More pieces than any run takes.
const MOST_PIECES: u64 = 0x8000_0000_0000;

// Writes the rest of the text: with some text before it, it is what the replay prints for some bytes (`PrintedWhole`). In `pieces::run`'s
// proof these are the text that was written and the bytes that were read, but no contract can say what is read from a file or written to
// one. So a refill that drops the bytes of a read would meet every contract here: that it does not is seen in its few lines, and by the
// tests. What `make_room_in` and `written` write, their contracts say of a writer whose bytes are known.
fn finish<W: Write, E: Write>(to: &mut W, err: &mut E, out: &[u8])
    requires { PrintedWhole replay out.now }
{
    let _ = text::written(to, err, out);
}

// The program.
struct Replay;

impl WorksOnAFile for Replay {
    const USAGE: &'static [u8] = b"replay: the argument is FILE, or none for standard input\n";

    // The heading, then a piece at a time until the replay stops.
    #[tactic(auto, unfolding(text::specs::Text::left))]
    fn work<R: Read>(rt: &HostRuntime, file: &mut R, name: &[u8]) {
        let mut to = rt.stdout();
        let mut err = rt.stderr();
        let mut input = Input::<LARGE_BUFFER>::empty();
        let mut lent = [0u8; ROOM];
        let mut out = ArrayVec::<u8, LARGE_BUFFER>::new();
        replay_lines::put_heading(&mut out);
        let mut progress = Progress::start();
        let stopped = pieces::run(
            &mut progress,
            file,
            &mut to,
            &mut err,
            name,
            &mut input,
            &mut lent,
            &mut out,
            MOST_PIECES,
        );
        if stopped.is_some() {
            finish(&mut to, &mut err, out.as_slice());
        }
    }
}

fn main(rt: HostRuntime) {
    window::run::<Replay>(&rt);
}
