// A program that takes its turns with an array for its text.
use super::*;
use window::{Lent, Window};

// Whether it has stopped: each byte is printed at a turn of its own.
impl<const N: usize> TakesTurns<N> for bool {
    ghost use Rattle.std.specs.Prelude.{refl};
    ghost use Rattle.pieces.specs.Echo.{echo, echo_laws, echo_counts};

    ghost machine = { echo };

    ghost lent_size = { 0 };

    ghost counted = { λ p. 0 };

    ghost for_each = { 0 };

    ghost MOST_SEEN = { 1 };

    ghost MOST_TEXT = { 1 };

    ghost lawful = { echo_laws };

    ghost sees = { refl };

    ghost prints = { refl };

    ghost counts_on = { echo_counts };

    const MOST_SEEN: usize = 1;

    const MOST_TEXT: usize = 1;

    fn stopped(&self) -> bool {
        *self
    }

    fn turn(&mut self, s: &[u8], lent: &mut [u8], out: &mut ArrayVec<u8, N>) -> usize {
        match s {
            [] => {
                *self = true;
                0
            }
            [byte, ..] => {
                out.push(*byte);
                1
            }
        }
    }
}

// It goes through the same loop: as many turns as the bytes at hand and the array's room allow.
#[test]
fn takes_turns_with_an_array(rt: HostRuntime) {
    let mut stopped = false;
    let mut hand = Lent {
        buffer: b"abc",
        window: Window {
            from: 0,
            to: 3,
            ended: true,
        },
    };
    let mut small = ArrayVec::<u8, 2>::new();
    advance(&mut stopped, &mut hand, &mut [], &mut small);
    assert!(rt;
        !stopped && small.as_slice() == b"ab".as_slice() && hand.window.from == 2,
        "no more has room"
    );
    let mut out = ArrayVec::<u8, 4>::new();
    advance(&mut stopped, &mut hand, &mut [], &mut out);
    assert!(rt;
        stopped && out.as_slice() == b"c".as_slice() && hand.window.from == 3,
        "none is left"
    );
}
