// The check of a recorder file: its calls are replayed, each recorded answer is held against the rules' own, and the verdict is put.
#![tactic(auto)]

ghost use Rattle.std.specs.Prelude.{◌≡◌, false, ◌++◌, ◌+◌, ◌*◌, ◌^◌, ◌≤◌, ◌<◌, length, position, nat_eq};
ghost use Rattle.text.specs.Text.{put, left, room_of};
ghost use Rattle.pieces.specs.Pieces.{TurnTaken};
ghost use Rattle.trace.specs.Record.{size_of};
ghost use Rattle.trace.specs.Call.{room};
ghost use Rattle.trace.specs.declared.Next.{Next};
ghost use Rattle.recorded_answer.specs.Answer.{answer_fields_size, most_answer_bytes};
ghost use Rattle.recorder_file.specs.Said.{
  line_of,
  place_line,
  wrong_length,
  why_bad,
  number_words,
  age_words,
  answer_words,
  difference_told,
  bad_told,
  first_line,
  most_verdict,
  most_place,
  most_number_words,
  most_age_words,
  most_answer_words,
  most_said,
};
ghost use Rattle.recorder_file.specs.Check.{start_of, nth, reckoned, one_call_more, turn_on};
ghost use Rattle.recorder_file.specs.declared.Verdict.{Verdict};

use calls::Answer;
use clock::Age;
use connection::Connection;
use pieces::TakesTurnsIn;
use recorded_answer::{ANSWER_FIELDS_SIZE, Fields, LEAST_BYTES, MOST_BYTES};
use table::MOST_RECORDS;
use text::Room;
use trace::{FIELDS_SIZE, Next, Record};

// The most bytes that are put at the end of a check.
pub const MOST_SAID: usize = 4336;

// The most bytes that a turn looks at: a call's record and that of its answer.
pub const MOST_SEEN: usize = trace::MOST_RECORD + FIELDS_SIZE + ANSWER_FIELDS_SIZE + trace::ROOM;

// The verdict on a recorder file: how many calls were judged, or the place of the first wrong one.
#[derive(Clone, Copy)]
pub enum Verdict {
    Agrees(u64),
    Differs(u64),
    Bad,
}

// What was passed: calls, those of them that were judged, and bytes.
#[derive(Clone, Copy)]
pub struct Passed {
    pub calls: u64,
    pub judged: u64,
    pub offset: u64,
}

// How far a check is: the table, what was passed, and whether it has stopped.
#[derive(Clone, Copy)]
pub struct Progress {
    pub table: [Connection; MOST_RECORDS],
    pub passed: Passed,
    pub stopped: bool,
}

impl Passed {
    // One call more, and so many answers judged.
    fn by(self, used: usize, judged: u64) -> Passed
        requires { reckoned self + used + judged + 1 < 2 ^ 64 }
        ensures { result ≡ one_call_more self used judged }
    {
        Passed {
            calls: self.calls + 1,
            judged: self.judged + judged,
            offset: self.offset + used as u64,
        }
    }

    // The record that stands next, counted from 1.
    fn nth(self) -> u64
        requires { reckoned self + 1 < 2 ^ 64 }
        ensures { result ≡ nth self }
    {
        self.calls + self.judged + 1
    }
}

impl Progress {
    // TRACE-5: 64 closed slots.
    pub fn start() -> Progress
        ensures { result ≡ start_of }
    {
        Progress {
            table: [Connection::all_zero(); MOST_RECORDS],
            passed: Passed {
                calls: 0,
                judged: 0,
                offset: 0,
            },
            stopped: false,
        }
    }

    // A call that may stand there: it is made, and where its answer stands behind it, that is held against the one that the rules give. Of
    // a wrong answer the table stays as it was before the call. The bytes that it used.
    // Stays: `size_of r ≤ length s.now` here and in `trace::made_by` and `made_on`: those are public, and take the record beside its bytes.
    fn judged<O: Room>(&mut self, s: &[u8], r: Record, lent: &mut [u8], out: &mut O) -> usize
        requires { (self.old.stopped ≡ false) × (size_of r ≤ length s.now) × (length lent.old ≡ room)
            × (most_said ≤ left (O.held out.old)) × (reckoned self.old.passed + 2 * length s.now < 2 ^ 64) }
        ensures taken { TurnTaken (turn_on self.old (Next.Whole r) s.now) self.new lent.old lent.new
            (O.held out.old).text (O.held out.new).text result }
        ensures put { O.held out.new ≡ put (turn_on self.old (Next.Whole r) s.now).text (O.held out.old) }
    {
        let slot = r.slot as usize;
        let before = self.table.get(slot).copied();
        let answer = trace::made_on(&mut self.table, r, s, lent);
        let used = FIELDS_SIZE + r.length as usize;
        let rest = &s[used..];
        let Some(a) = recorded_answer::answer_behind(r, rest) else {
            self.passed = self.passed.by(used, 0);
            return used;
        };
        let answered = FIELDS_SIZE + a.length as usize;
        let recorded = &rest[FIELDS_SIZE..answered];
        if recorded_answer::is_right(recorded, answer, lent) {
            self.passed = self.passed.by(used + answered, 1);
            return used + answered;
        }
        put_difference(out, self.passed, used, recorded, answer, lent);
        if let Some(c) = before {
            self.table[slot] = c;
        }
        self.stopped = true;
        0
    }
}

impl<O: Room> TakesTurnsIn<O> for Progress {
    ghost use Rattle.std.specs.Prelude.{refl};
    ghost use Rattle.recorder_file.specs.Check.{most_seen, checker};
    ghost use Rattle.recorder_file.specs.Laws.{check_laws, check_counts};

    ghost machine = { checker };

    ghost lent_size = { room };

    // The number of the record that stands next, which is told of a bad one.
    ghost counted = { λ p. reckoned p.passed + 1 };

    // A record counts for each of its bytes once, and once more for itself.
    ghost for_each = { 2 };

    ghost MOST_SEEN = { most_seen };

    ghost MOST_TEXT = { most_said };

    ghost lawful = { check_laws };

    ghost sees = { refl };

    ghost prints = { refl };

    ghost counts_on = { check_counts };

    const MOST_SEEN: usize = MOST_SEEN;

    const MOST_TEXT: usize = MOST_SAID;

    fn stopped(&self) -> bool {
        self.stopped
    }

    fn turn(&mut self, s: &[u8], lent: &mut [u8], out: &mut O) -> usize {
        match trace::record_of(s) {
            Next::End => put_verdict(out, Verdict::Agrees(self.passed.judged)),
            Next::Bad => put_bad(out, self.passed, s),
            Next::Whole(r) => return self.judged(s, r, lent, out),
        }
        self.stopped = true;
        0
    }
}

// CHECKER-8, CHECKER-9, CHECKER-10.
#[tactic(auto, using(text::proofs::Puts::put_put))]
fn put_verdict<O: Room>(out: &mut O, verdict: Verdict)
    requires { most_verdict ≤ left (O.held out.old) }
    ensures put { O.held out.new ≡ put (line_of verdict) (O.held out.old) }
    ensures upper_bound { left (O.held out.old) ≤ left (O.held out.new) + most_verdict }
    ensures same { room_of (O.held out.new) ≡ room_of (O.held out.old) }
{
    match verdict {
        Verdict::Agrees(judged) => {
            text::put(out, b"agrees");
            text::put_number(out, judged);
            text::put(out, b"\n");
        }
        Verdict::Differs(place) => {
            text::put(out, b"differs");
            text::put_number(out, place);
            text::put(out, b"\n");
        }
        Verdict::Bad => text::put(out, b"bad\n"),
    }
}

// CHECKER-13: where it stopped.
fn put_place<O: Room>(out: &mut O, nth: u64, offset: u64)
    requires { most_place ≤ left (O.held out.old) }
    ensures put { O.held out.new ≡ put (place_line nth offset) (O.held out.old) }
    ensures upper_bound { left (O.held out.old) ≤ left (O.held out.new) + most_place }
    ensures same { room_of (O.held out.new) ≡ room_of (O.held out.old) }
{
    text::put(out, b"record");
    text::put_number(out, nth);
    text::put(out, b", byte offset");
    text::put_number(out, offset);
}

// CHECKER-4, CHECKER-5: whether a record has a length that its kind may not have.
fn wrong_length(r: Record) -> bool
    ensures { result ≡ wrong_length r }
{
    match r.kind {
        recorded_answer::ANSWER => !(LEAST_BYTES..=MOST_BYTES).contains(&r.length),
        _ => trace::MOST_RECORD_BYTES < r.length,
    }
}

// CHECKER-13: why a record is bad.
fn why_bad(s: &[u8]) -> &'static [u8]
    ensures { result.now ≡ why_bad s.now }
{
    if s.len() < FIELDS_SIZE {
        return b": cut record\n";
    }
    let r = trace::fields_at(s);
    if r.mark != trace::MARK {
        b": wrong mark\n"
    } else if !(trace::BEGIN..=recorded_answer::ANSWER).contains(&r.kind) {
        b": unknown kind\n"
    } else if wrong_length(r) {
        b": wrong length\n"
    } else if s.len() < FIELDS_SIZE + r.length as usize {
        b": cut record\n"
    } else {
        b": no call of its slot and now directly before it\n"
    }
}

// CHECKER-14: the words of an answer's number and release.
#[tactic(auto, using(text::proofs::Puts::put_put))]
fn put_number_words<O: Room>(out: &mut O, number: u16, released: u8)
    requires { most_number_words ≤ left (O.held out.old) }
    ensures put { O.held out.new ≡ put (number_words number released) (O.held out.old) }
    ensures upper_bound { left (O.held out.old) ≤ left (O.held out.new) + most_number_words }
    ensures same { room_of (O.held out.new) ≡ room_of (O.held out.old) }
{
    text::put(out, b" answer");
    text::put_number(out, u64::from(number));
    text::put(out, b" released");
    text::put_number(out, u64::from(released));
}

// CHECKER-14: the words of its age and of the bytes written.
#[tactic(auto, using(text::proofs::Puts::put_put))]
fn put_age_words<O: Room>(out: &mut O, age: Age, written: &[u8])
    requires { (most_age_words ≤ left (O.held out.old)) × (length written.now ≤ room) }
    ensures put { O.held out.new ≡ put (age_words age written.now) (O.held out.old) }
    ensures upper_bound { left (O.held out.old) ≤ left (O.held out.new) + most_age_words }
    ensures same { room_of (O.held out.new) ≡ room_of (O.held out.old) }
{
    text::put(out, b" age");
    text::put_centred(out, age);
    text::put(out, b" written");
    text::put_bytes(out, written);
    text::put(out, b"\n");
}

// CHECKER-14: an answer, behind a word that says whose it is.
#[tactic(auto, using(text::proofs::Puts::put_put))]
fn put_answer<O: Room>(out: &mut O, whose: &[u8], fields: Fields, written: &[u8])
    requires { (length whose.now + most_answer_words ≤ left (O.held out.old)) × (length written.now ≤ room) }
    ensures put { O.held out.new ≡ put (whose.now ++ answer_words fields.number fields.released fields.age written.now) (O.held out.old) }
    ensures upper_bound { left (O.held out.old) ≤ left (O.held out.new) + length whose.now + most_answer_words }
    ensures same { room_of (O.held out.new) ≡ room_of (O.held out.old) }
{
    text::put(out, whose);
    put_number_words(out, fields.number, fields.released);
    put_age_words(out, fields.age, written);
}

// CHECKER-9, CHECKER-13, CHECKER-14: the verdict, where the check stopped, and both answers.
fn put_difference<O: Room>(
    out: &mut O,
    passed: Passed,
    used: usize,
    recorded: &[u8],
    answer: Answer,
    lent: &[u8],
)
    requires { (most_said ≤ left (O.held out.old)) × (answer_fields_size ≤ length recorded.now)
        × (length recorded.now ≤ most_answer_bytes) × (answer.written ≤ length lent.now) × (length lent.now ≡ room)
        × (reckoned passed + used + 2 < 2 ^ 64) }
    ensures put { O.held out.new ≡ put (line_of (Verdict.Differs (passed.calls + 1))
        ++ difference_told (nth passed + 1) (passed.offset + used) recorded.now answer lent.now) (O.held out.old) }
    ensures same { room_of (O.held out.new) ≡ room_of (O.held out.old) }
{
    put_verdict(out, Verdict::Differs(passed.calls + 1));
    put_place(out, passed.nth() + 1, passed.offset + used as u64);
    text::put(out, b": not the answer that the rules give\n");
    let fields = recorded_answer::fields_of(recorded);
    put_answer(out, b"recorded:", fields, &recorded[ANSWER_FIELDS_SIZE..]);
    let right = Fields::from(answer);
    put_answer(out, b"the rules:", right, &lent[..answer.written]);
}

// CHECKER-10, CHECKER-13: the verdict on a file with a bad record, where that stands, and why it is bad.
#[tactic(auto, using(text::proofs::Puts::put_put))]
fn put_bad<O: Room>(out: &mut O, passed: Passed, s: &[u8])
    requires { (most_said ≤ left (O.held out.old)) × (reckoned passed + 1 < 2 ^ 64) }
    ensures put { O.held out.new ≡ put (line_of Verdict.Bad ++ bad_told (nth passed) passed.offset s.now) (O.held out.old) }
    ensures same { room_of (O.held out.new) ≡ room_of (O.held out.old) }
{
    put_verdict(out, Verdict::Bad);
    put_place(out, passed.nth(), passed.offset);
    text::put(out, why_bad(s));
}

// Where the first line of what was said ends.
fn line_end(said: &[u8]) -> Option<usize>
    ensures { result ≡ position (λ b. nat_eq b 10) said.now }
{
    said.iter().position(|b| *b == b'\n')
}

// How many bytes the first line of what was said has.
pub fn line_size(said: &[u8]) -> usize
    ensures { (result ≡ length (first_line said.now)) × (result ≤ length said.now) }
{
    match line_end(said) {
        Some(end) => end + 1,
        None => said.len(),
    }
}
