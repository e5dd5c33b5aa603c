// The text at the front of a buffer that is lent to be read alone.
ghost use Rattle.std.specs.Prelude.{◌≤◌, length};

use crate::Holds;

// Such a buffer: its text ends at a place, and more can't be put behind it.
#[derive(Clone, Copy)]
pub struct Front<'a> {
    pub buffer: &'a [u8],
    pub at: usize,
    ghost within: { at ≤ length buffer.now },
}

impl<'a> Holds for Front<'a> {
    ghost use Rattle.text.specs.Room.{held_in_front};

    ghost held = { λ front. held_in_front front.buffer.now front.at };

    ghost emptied = { λ front. held_in_front front.buffer.now 0 };

    fn text(&self) -> &[u8] {
        &self.buffer[..self.at]
    }

    #[tactic(auto, unfolding(crate::specs::Text::left))]
    fn left(&self) -> usize {
        self.buffer.len() - self.at
    }

    #[tactic(auto, unfolding(crate::specs::Text::room_of))]
    fn empty(&mut self) {
        self.at = 0;
    }
}
