// Text that is put into a part of a lent buffer.
ghost use Rattle.std.specs.Prelude.{◌+◌, ◌≤◌, length};
ghost use Rattle.text.specs.Text.{PutAt};

use super::*;
use crate::{Front, make_room_in, put, put_number};

// Puts bytes into a lent buffer at a place, by a part of it, and answers the place after them.
fn put_at(out: &mut [u8], at: usize, s: &[u8]) -> usize
    requires { at + length s.now ≤ length out.old }
    ensures { PutAt out.old at s.now out.new result }
{
    let mut part = Part::new(out, at);
    put(&mut part, s);
    part.at
}

// Text stands in a lent buffer from its place on, and the bytes beside it are as they were.
#[test]
fn puts_into_a_part(rt: HostRuntime) {
    let mut out = *b"------------------------------";
    let next = put_at(&mut out, 2, b"abc");
    assert!(rt;
        next == 5 && out == *b"--abc-------------------------",
        "the place after it, and the bytes"
    );
    let mut part = Part::new(&mut out, 5);
    assert!(rt; part.left() == 25, "the room behind the place");
    put_number(&mut part, 7);
    assert!(rt;
        part.at == 7 && part.left() == 23 && part.text() == b"--abc 7".as_slice(),
        "a word behind it"
    );
    assert!(rt;
        out == *b"--abc 7-----------------------",
        "and the bytes behind that"
    );
}

// Where a part has no room, its text is written, and the buffer stays as it is.
#[test]
fn makes_room_in_a_part(rt: HostRuntime) {
    let mut to = ArrayVec::<u8, 8>::new();
    let mut err = ArrayVec::<u8, 8>::new();
    let mut out = *b"abcd";
    let mut part = Part::new(&mut out, 3);
    assert!(rt;
        make_room_in(&mut to, &mut err, &mut part, 1).is_ok() && part.at == 3 && to.is_empty(),
        "there is room"
    );
    assert!(rt;
        make_room_in(&mut to, &mut err, &mut part, 2).is_ok()
            && part.at == 0
            && to.as_slice() == b"abc".as_slice(),
        "there is none"
    );
    assert!(rt; out == *b"abcd", "the buffer");
}

// So too of a buffer that may only be read.
#[test]
fn makes_room_in_a_front(rt: HostRuntime) {
    let mut to = ArrayVec::<u8, 8>::new();
    let mut err = ArrayVec::<u8, 8>::new();
    let mut front = Front {
        buffer: b"abcd",
        at: 3,
    };
    assert!(rt;
        make_room_in(&mut to, &mut err, &mut front, 1).is_ok() && front.at == 3 && to.is_empty(),
        "there is room"
    );
    assert!(rt;
        make_room_in(&mut to, &mut err, &mut front, 2).is_ok()
            && front.at == 0
            && to.as_slice() == b"abc".as_slice(),
        "there is none"
    );
}
