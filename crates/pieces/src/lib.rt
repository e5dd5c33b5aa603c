// Programs that take turns on the bytes of a file, each as its machine of specs/Machine says: the loops over turns and over pieces.
#![tactic(auto)]

ghost use Rattle.std.specs.Prelude.{◌≡◌, ℕ, true, false, ◌+◌, ◌*◌, ◌^◌, ◌≤◌, ◌<◌, List, length, OnOk, OnSome};
ghost use Rattle.text.specs.Text.{put, left, room_of};
ghost use Rattle.window.specs.Window.{empty_window, left_of};
ghost use Rattle.pieces.specs.Machine.{Machine, Lawful};
ghost use Rattle.pieces.specs.Pieces.{waits, piece_from, TurnTaken, AdvancedTo, PieceOf, PrintedWhole};
ghost use Rattle.pieces.specs.Quiet.{Quiet, PrintedAtOnce};

#[cfg(test)]
mod tests;

use arrayvec::ArrayVec;
use std::io;
use std::io::{Read, Write};
use text::{Holds, Room};
use window::{AtHand, Input};

// How far a program is that takes turns on the bytes of a file, with room for a text of so many bytes: the state of a machine.
pub trait TakesTurns<const N: usize> {
    ghost machine: { Machine Self };

    // How many bytes the buffer has that is lent to the turns.
    ghost lent_size: { ℕ };

    // What the numbers of a state come to, which a turn adds to, and how much at most for each byte that it uses up.
    ghost counted: { Self → ℕ };

    ghost for_each: { ℕ };

    ghost MOST_SEEN: { ℕ };

    ghost MOST_TEXT: { ℕ };

    // The most bytes that a turn looks at, and the most that it prints.
    const MOST_SEEN: usize;

    const MOST_TEXT: usize;

    // Whether it takes no more turns.
    fn stopped(&self) -> bool
        ensures { result ≡ machine.stopped self.now };

    // A turn on the bytes at hand, with its text put behind `out`: answers how many of them it used up.
    fn turn(&mut self, s: &[u8], lent: &mut [u8], out: &mut ArrayVec<u8, N>) -> usize
        requires goes { machine.stopped self.old ≡ false }
        requires counts { counted self.old + for_each * length s.now < 2 ^ 64 }
        requires lent_len { length lent.old ≡ lent_size }
        requires room { length out.old.items + machine.most_text ≤ N }
        ensures { TurnTaken (machine.turn self.old s.now) self.new lent.old lent.new out.old.items out.new.items result };

    ghost lawful: { Lawful machine };

    ghost sees: { machine.most_seen ≡ MOST_SEEN };

    ghost prints: { machine.most_text ≡ MOST_TEXT };

    ghost counts_on: { (p : Self) (s : List ℕ) → counted (machine.turn p s).next ≤ counted p + for_each * (machine.turn p s).used };
}

// How far a program is that takes turns on the bytes of a file, with their text put into a room: the state of a machine.
pub trait TakesTurnsIn<O: Room> {
    ghost machine: { Machine Self };

    // How many bytes the buffer has that is lent to the turns.
    ghost lent_size: { ℕ };

    // What the numbers of a state come to, which a turn adds to, and how much at most for each byte that it uses up.
    ghost counted: { Self → ℕ };

    ghost for_each: { ℕ };

    ghost MOST_SEEN: { ℕ };

    ghost MOST_TEXT: { ℕ };

    // The most bytes that a turn looks at, and the most that it prints.
    const MOST_SEEN: usize;

    const MOST_TEXT: usize;

    // Whether it takes no more turns.
    fn stopped(&self) -> bool
        ensures { result ≡ machine.stopped self.now };

    // A turn on the bytes at hand, with its text put behind `out`: answers how many of them it used up.
    fn turn(&mut self, s: &[u8], lent: &mut [u8], out: &mut O) -> usize
        requires goes { machine.stopped self.old ≡ false }
        requires counts { counted self.old + for_each * length s.now < 2 ^ 64 }
        requires lent_len { length lent.old ≡ lent_size }
        requires room { machine.most_text ≤ left (O.held out.old) }
        ensures taken { TurnTaken (machine.turn self.old s.now) self.new lent.old lent.new
            (O.held out.old).text (O.held out.new).text result }
        ensures put { O.held out.new ≡ put (machine.turn self.old s.now).text (O.held out.old) };

    ghost lawful: { Lawful machine };

    ghost sees: { machine.most_seen ≡ MOST_SEEN };

    ghost prints: { machine.most_text ≡ MOST_TEXT };

    ghost counts_on: { (p : Self) (s : List ℕ) → counted (machine.turn p s).next ≤ counted p + for_each * (machine.turn p s).used };
}

// An array of so many bytes is such a room: nothing that can be seen stands behind its text.
impl<const N: usize, M: TakesTurns<N>> TakesTurnsIn<ArrayVec<u8, N>> for M {
    ghost machine = { M.machine };

    ghost lent_size = { M.lent_size };

    ghost counted = { M.counted };

    ghost for_each = { M.for_each };

    ghost MOST_SEEN = { M.MOST_SEEN };

    ghost MOST_TEXT = { M.MOST_TEXT };

    ghost lawful = { M.lawful };

    ghost sees = { M.sees };

    ghost prints = { M.prints };

    ghost counts_on = { M.counts_on };

    const MOST_SEEN: usize = <M as TakesTurns<N>>::MOST_SEEN;

    const MOST_TEXT: usize = <M as TakesTurns<N>>::MOST_TEXT;

    fn stopped(&self) -> bool {
        TakesTurns::stopped(self)
    }

    #[tactic(auto, using(text::proofs::Rooms::array_put), unfolding(text::specs::Text::left))]
    fn turn(&mut self, s: &[u8], lent: &mut [u8], out: &mut ArrayVec<u8, N>) -> usize {
        // An array holds no more than its size, as the kit says of what is left.
        let _within = out.remaining_capacity();
        TakesTurns::turn(self, s, lent, out)
    }
}

// Whether it waits: it has stopped, or is to be refilled, or has no room for what a turn prints.
#[tactic(auto, unfolding(crate::specs::Pieces::waits))]
fn waits<O: Room, I: AtHand, M: TakesTurnsIn<O>>(state: &M, input: &I, room: usize) -> bool
    ensures { result ≡ waits M.machine (M.machine.stopped state.now) (I.window input.now) room }
{
    state.stopped() || input.low(M::MOST_SEEN) || room < M::MOST_TEXT
}

// Turns on the bytes at hand until it waits.
pub fn advance<O: Room, I: AtHand, M: TakesTurnsIn<O>>(
    state: &mut M,
    input: &mut I,
    lent: &mut [u8],
    out: &mut O,
)
    requires counts { M.counted state.old + M.for_each * left_of (I.window input.old) < 2 ^ 64 }
    requires lent_len { length lent.old ≡ M.lent_size }
    ensures advanced { AdvancedTo M.machine (O.held out.old).size (I.buffer input.old) state.old (I.window input.old)
        lent.old (O.held out.old).text lent.new (O.held out.new).text state.new (I.window input.new) }
    ensures put { O.held out.new ≡ put
        (piece_from M.machine (left (O.held out.old)) (I.buffer input.old) state.old (I.window input.old) lent.old).text (O.held out.old) }
    ensures same { room_of (O.held out.new) ≡ room_of (O.held out.old) }
    ensures buffer { I.buffer input.new ≡ I.buffer input.old }
    ensures counts { M.counted state.new + M.for_each * left_of (I.window input.new)
        ≤ M.counted state.old + M.for_each * left_of (I.window input.old) }
{
    while !waits(state, input, out.left()) {
        let used = state.turn(input.unread(), lent, out);
        input.use_up(used);
    }
}

// One piece of a file: room for what a turn prints, the input topped up, and as many turns as it holds bytes for.
pub fn piece<O: Room, const B: usize, M: TakesTurnsIn<O>, R: Read, W: Write, E: Write>(
    state: &mut M,
    file: &mut R,
    to: &mut W,
    err: &mut E,
    name: &[u8],
    input: &mut Input<B>,
    lent: &mut [u8],
    out: &mut O,
) -> io::Result<()>
    requires sizes { (M.machine.most_seen ≤ B) × (M.machine.most_text ≤ (O.held out.old).size) }
    requires counts { M.counted state.old + M.for_each * B < 2 ^ 64 }
    requires lent_len { length lent.old ≡ M.lent_size }
    ensures piece { OnOk result (PieceOf M.machine (O.held out.old).size input.old.buffer input.old.window state.old
        lent.old (O.held out.old).text input.new.buffer lent.new (O.held out.new).text state.new input.new.window) }
    ensures counts { OnOk result (M.counted state.new ≤ M.counted state.old + M.for_each * B) }
    ensures same { room_of (O.held out.new) ≡ room_of (O.held out.old) }
{
    text::make_room_in(to, err, out, M::MOST_TEXT)?;
    input.top_up(file, err, name, M::MOST_SEEN).got?;
    advance(state, input, lent, out);
    Ok(())
}

// A piece of a file at a time, from its first one, until it stops; none where a piece can't be read, or its text not be written, and where
// it has not stopped after so many: a proved loop has to end, and nothing says that a file does.
pub fn run<O: Room, const B: usize, M: TakesTurnsIn<O>, R: Read, W: Write, E: Write>(
    state: &mut M,
    file: &mut R,
    to: &mut W,
    err: &mut E,
    name: &[u8],
    input: &mut Input<B>,
    lent: &mut [u8],
    out: &mut O,
    most_pieces: u64,
) -> Option<()>
    requires starts { (state.old ≡ M.machine.first) × (input.old.window ≡ empty_window) × ((O.held out.old).text ≡ M.machine.heading) }
    requires sizes { (M.machine.most_seen ≤ B) × (M.machine.most_text ≤ (O.held out.old).size) }
    requires counts { M.counted state.old + M.for_each * (B * most_pieces) < 2 ^ 64 }
    requires lent_len { length lent.old ≡ M.lent_size }
    ensures whole { OnSome result (PrintedWhole M.machine (O.held out.new).text) }
    ensures at_once { OnSome result (Quiet M.machine → PrintedAtOnce M.machine (O.held out.new).text) }
{
    for _ in 0..most_pieces {
        piece(state, file, to, err, name, input, lent, out).ok()?;
        if state.stopped() {
            return Some(());
        }
    }
    None
}
