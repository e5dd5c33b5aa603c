// The replay of bytes that are lent, its text put into a lent buffer at a place.
ghost use Rattle.std.specs.Prelude.{◌≡◌, ◌+◌, ◌-◌, ◌*◌, ◌^◌, ◌≤◌, ◌<◌, length};
ghost use Rattle.text.specs.Text.{PutAt};
ghost use Rattle.window.specs.Window.{Within, left_of};
ghost use Rattle.pieces.specs.Pieces.{piece_from};
ghost use Rattle.trace.specs.Call.{room};
ghost use Rattle.replay_lines.specs.Replay.{replay};

use super::*;
use text::Part;
use trace::ROOM;
use window::{Lent, Window};

// Turns on the bytes at hand until the replay waits: the window on the bytes that are left, and the place after the text.
fn advance(
    buffer: &[u8],
    lent: &mut [u8],
    out: &mut [u8],
    at: usize,
    p: &mut Progress,
    window: Window,
) -> (Window, usize)
    requires { Within window (length buffer.now) × (length lent.old ≡ room) × (at ≤ length out.old)
        × (p.old.count + left_of window < 2 ^ 64) }
    ensures state { p.new ≡ (piece_from replay (length out.old - at) buffer.now p.old window lent.old).state }
    ensures window { result.0 ≡ (piece_from replay (length out.old - at) buffer.now p.old window lent.old).window }
    ensures put { PutAt out.old at (piece_from replay (length out.old - at) buffer.now p.old window lent.old).text out.new result.1 }
    ensures counts { p.new.count + left_of result.0 ≤ p.old.count + left_of window }
    ensures leaves { lent.new ≡ (piece_from replay (length out.old - at) buffer.now p.old window lent.old).lent }
{
    let mut hand = Lent { buffer, window };
    let mut part = Part::new(out, at);
    pieces::advance(p, &mut hand, lent, &mut part);
    (hand.window, part.at)
}

// A replay of an empty trace prints the last line, behind what the buffer holds, and the bytes behind that stay.
#[test]
fn advances_on_lent_bytes(rt: HostRuntime) {
    let mut progress = Progress::start();
    let mut lent = [0; ROOM];
    let mut out = [b'-'; 80];
    let window = Window {
        from: 0,
        to: 0,
        ended: true,
    };
    let (left, next) = advance(&[], &mut lent, &mut out, 4, &mut progress, window);
    assert!(rt;
        progress.stopped && left.from == 0 && next == 10,
        "it has stopped"
    );
    assert!(rt;
        &out[..10] == b"----end 0\n".as_slice() && &out[10..] == [b'-'; 70].as_slice(),
        "the last line, and the bytes beside it"
    );
}
