// The bytes at hand of a file: those of an input, or of a buffer that is lent.
ghost use Rattle.std.specs.Prelude.{◌≡◌, ℕ, List, ◌≤◌, length};
ghost use Rattle.window.specs.declared.Window.{Window};
ghost use Rattle.window.specs.Window.{Within, left_of, unread, low_of, used_of};

use crate::{Input, Window};

// Bytes at hand: a buffer, and the window on those of its bytes that are not used up.
pub trait AtHand {
    ghost buffer: { Self → List ℕ };

    ghost window: { Self → Window };

    // Whether they are to be topped up, for steps that look at `most` of them at the most.
    fn low(&self, most: usize) -> bool
        ensures { result ≡ low_of most (window self.now) };

    // Those that are left.
    fn unread(&self) -> &[u8]
        ensures value { result.now ≡ unread (buffer self.now) (window self.now) }
        ensures len { length result.now ≡ left_of (window self.now) };

    // So many of them are used up.
    fn use_up(&mut self, count: usize)
        requires { count ≤ left_of (window self.old) }
        ensures window { window self.new ≡ used_of count (window self.old) }
        ensures buffer { buffer self.new ≡ buffer self.old };

    ghost lies: { (hand : Self) → Within (window hand) (length (buffer hand)) };
}

impl<const N: usize> AtHand for Input<N> {
    ghost use Rattle.window.specs.Lies.{input_lies};

    ghost buffer = { λ input. input.buffer };

    ghost window = { λ input. input.window };

    ghost lies = { λ input. input_lies N input.buffer input.window input.size input.within };

    fn low(&self, most: usize) -> bool {
        Input::low(self, most)
    }

    fn unread(&self) -> &[u8] {
        Input::unread(self)
    }

    fn use_up(&mut self, count: usize) {
        Input::use_up(self, count);
    }
}

// A buffer that is lent, and the window on those of its bytes that are not used up.
#[derive(Clone, Copy)]
pub struct Lent<'a> {
    pub buffer: &'a [u8],
    pub window: Window,
    pub ghost within: { Within window (length buffer.now) },
}

impl<'a> AtHand for Lent<'a> {
    ghost buffer = { λ lent. lent.buffer.now };

    ghost window = { λ lent. lent.window };

    ghost lies = { λ lent. lent.within };

    fn low(&self, most: usize) -> bool {
        self.window.low(most)
    }

    fn unread(&self) -> &[u8] {
        self.window.unread(self.buffer)
    }

    fn use_up(&mut self, count: usize) {
        self.window = self.window.used(count);
    }
}
