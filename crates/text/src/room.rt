// Where text is put: behind the text that is held, as far as there is room. A room of a fixed size, and a part of a buffer that is lent.
ghost use Rattle.std.specs.Prelude.{◌≡◌, ◌∷◌, [], ◌≤◌, length};
ghost use Rattle.text.specs.Text.{Held, put, left, room_of};

#[cfg(test)]
mod tests;

use arrayvec::ArrayVec;

// What holds a text: it can be read, and emptied.
pub trait Holds {
    ghost held: { Self → Held };

    // What it holds once its text has gone.
    ghost emptied: { Self → Held };

    // The text that is held.
    fn text(&self) -> &[u8]
        ensures { result.now ≡ (held self.now).text };

    // How many bytes have room behind it.
    fn left(&self) -> usize
        ensures { result ≡ left (held self.now) };

    // The text goes, and its room is free.
    fn empty(&mut self)
        ensures emptied { held self.new ≡ emptied self.old }
        ensures text { (held self.new).text ≡ [] }
        ensures same { room_of (held self.new) ≡ room_of (held self.old) };
}

// A room for text: more can be put behind the one that is held.
pub trait Room: Holds {
    fn put(&mut self, s: &[u8])
        requires { length s.now ≤ left (Self.held self.old) }
        ensures { Self.held self.new ≡ put s.now (Self.held self.old) };

    fn put_byte(&mut self, byte: u8)
        requires { 1 ≤ left (Self.held self.old) }
        ensures { Self.held self.new ≡ put (byte ∷ []) (Self.held self.old) };
}

// What stands behind its text can't be seen.
impl<const N: usize> Holds for ArrayVec<u8, N> {
    ghost use Rattle.text.specs.Room.{held_in_array};

    ghost held = { λ v. held_in_array N v.items };

    ghost emptied = { λ v. held_in_array N [] };

    fn text(&self) -> &[u8] {
        self.as_slice()
    }

    #[tactic(auto, unfolding(crate::specs::Text::left, crate::specs::Text::room_of))]
    fn left(&self) -> usize {
        self.remaining_capacity()
    }

    #[tactic(auto, unfolding(crate::specs::Text::left, crate::specs::Text::room_of))]
    fn empty(&mut self) {
        self.clear();
    }
}

impl<const N: usize> Room for ArrayVec<u8, N> {
    #[tactic(auto, using(crate::proofs::Rooms::array_put), unfolding(crate::specs::Text::left))]
    fn put(&mut self, s: &[u8]) {
        let _fits = self.try_extend_from_slice(s);
    }

    #[tactic(auto, unfolding(crate::specs::Text::left, crate::specs::Text::room_of))]
    fn put_byte(&mut self, byte: u8) {
        self.push(byte);
    }
}

// A part of a buffer that is lent: its text ends at a place, and the bytes from there on are its room.
#[derive(Drop)]
pub struct Part<'a> {
    pub buffer: &'a mut [u8],
    pub at: usize,
    ghost within: { at ≤ length buffer.now },
}

impl<'a> Part<'a> {
    pub fn new(buffer: &'a mut [u8], at: usize) -> Part<'a>
        requires { at ≤ length buffer.old }
        ensures same_reference { result.buffer.ghost_name ≡ buffer.entry.ghost_name }
        ensures buffer { result.buffer.now ≡ buffer.old }
        ensures place { result.at ≡ at }
    {
        Part { buffer, at }
    }
}

impl<'a> Holds for Part<'a> {
    ghost use Rattle.text.specs.Room.{held_in_part};

    ghost held = { λ part. held_in_part part.buffer part.at };

    ghost emptied = { λ part. held_in_part part.buffer 0 };

    fn text(&self) -> &[u8] {
        &self.buffer[..self.at]
    }

    #[tactic(auto, unfolding(crate::specs::Text::left, crate::specs::Text::room_of))]
    fn left(&self) -> usize {
        self.buffer.len() - self.at
    }

    #[tactic(auto, unfolding(crate::specs::Text::left, crate::specs::Text::room_of))]
    fn empty(&mut self) {
        self.at = 0;
    }
}

impl<'a> Room for Part<'a> {
    #[tactic(auto, unfolding(crate::specs::Text::left, crate::specs::Text::room_of))]
    fn put(&mut self, s: &[u8]) {
        field::copy(self.buffer, self.at, s);
        self.at += s.len();
    }

    #[tactic(auto, unfolding(crate::specs::Text::left, crate::specs::Text::room_of))]
    fn put_byte(&mut self, byte: u8) {
        self.buffer[self.at] = byte;
        self.at += 1;
    }
}
