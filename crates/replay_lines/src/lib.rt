// The lines that the replay of a trace prints: its records are read, each makes its call on the table, and a line is put for it.
#![tactic(auto)]

ghost use Rattle.std.specs.Prelude.{◌≡◌, ◌++◌, ◌≤◌};
ghost use Rattle.text.specs.Text.{put, left, room_of};
ghost use Rattle.replay_lines.specs.Printed.{heading, line_of, bad_of, most_line};
ghost use Rattle.replay_lines.specs.Replay.{start_of, replay};

#[cfg(test)]
mod tests;

use clock::Age;
use connection::Connection;
use pieces::TakesTurnsIn;
use table::MOST_RECORDS;
use text::Room;
use trace::{FIELDS_SIZE, MOST_RECORD, Next};

// The most bytes that are put at a turn.
pub const MOST_LINE: usize = 64;

// How far a replay is: the table, how many records were replayed, and whether it has stopped.
#[derive(Clone, Copy)]
pub struct Progress {
    pub table: [Connection; MOST_RECORDS],
    pub count: u64,
    pub stopped: bool,
}

impl Progress {
    // TRACE-5: 64 closed slots.
    pub fn start() -> Progress
        ensures { result ≡ start_of }
    {
        Progress {
            table: [Connection::all_zero(); MOST_RECORDS],
            count: 0,
            stopped: false,
        }
    }
}

// The heading.
pub fn put_heading<O: Room>(out: &mut O)
    requires { most_line ≤ left (O.held out.old) }
    ensures put { O.held out.new ≡ put heading (O.held out.old) }
    ensures text { (O.held out.new).text ≡ (O.held out.old).text ++ heading }
    ensures same { room_of (O.held out.new) ≡ room_of (O.held out.old) }
{
    text::put(out, b"slot answer age\n");
}

// The line of a record.
#[tactic(auto, using(text::proofs::Puts::put_put))]
fn put_line<O: Room>(out: &mut O, slot: u8, number: u16, age: Age)
    requires { most_line ≤ left (O.held out.old) }
    ensures put { O.held out.new ≡ put (line_of slot number age) (O.held out.old) }
    ensures same { room_of (O.held out.new) ≡ room_of (O.held out.old) }
{
    text::put_decimal(out, u64::from(slot));
    text::put_number(out, u64::from(number));
    text::put_centred(out, age);
    text::put(out, b"\n");
}

// `bad` and the last line.
#[tactic(auto, using(text::proofs::Puts::put_put))]
fn put_bad<O: Room>(out: &mut O, count: u64)
    requires { most_line ≤ left (O.held out.old) }
    ensures put { O.held out.new ≡ put (bad_of count) (O.held out.old) }
    ensures same { room_of (O.held out.new) ≡ room_of (O.held out.old) }
{
    text::put(out, b"bad\n");
    text::put_end(out, count);
}

impl<O: Room> TakesTurnsIn<O> for Progress {
    ghost use Rattle.std.specs.Prelude.{refl};
    ghost use Rattle.trace.specs.Record.{most_record};
    ghost use Rattle.trace.specs.Call.{room};
    ghost use Rattle.replay_lines.specs.Laws.{replay_laws, replay_counts};

    ghost machine = { replay };

    ghost lent_size = { room };

    ghost counted = { λ p. p.count };

    ghost for_each = { 1 };

    ghost MOST_SEEN = { most_record };

    ghost MOST_TEXT = { most_line };

    ghost lawful = { replay_laws };

    ghost sees = { refl };

    ghost prints = { refl };

    ghost counts_on = { replay_counts };

    const MOST_SEEN: usize = MOST_RECORD;

    const MOST_TEXT: usize = MOST_LINE;

    fn stopped(&self) -> bool {
        self.stopped
    }

    #[tactic(auto, using(text::proofs::Puts::text_after))]
    fn turn(&mut self, s: &[u8], lent: &mut [u8], out: &mut O) -> usize {
        match trace::record_of(s) {
            Next::End => {
                self.stopped = true;
                text::put_end(out, self.count);
                0
            }
            Next::Bad => {
                self.stopped = true;
                put_bad(out, self.count);
                0
            }
            Next::Whole(r) => {
                let answer = trace::made_on(&mut self.table, r, s, lent);
                self.count += 1;
                put_line(out, r.slot, answer.number, answer.age);
                FIELDS_SIZE + r.length as usize
            }
        }
    }
}
