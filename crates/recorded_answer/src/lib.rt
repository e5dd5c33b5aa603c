// The answers of a recorder file: which record holds one, and whether it is the answer that the rules give.
#![tactic(auto)]

ghost use Rattle.std.specs.Prelude.{◌≡◌, ◌≤◌, length};
ghost use Rattle.recorded_answer.specs.Answer.{answer_fields_size, is_right, answers_to, behind_of, recorded_fields, answer_fields};

use calls::Answer;
use clock::{Age, Centred};
use trace::Record;

// CHECKER-1: the kind of a recorded answer, and the bytes of its fields.
pub const ANSWER: u8 = 6;

pub const ANSWER_FIELDS_SIZE: usize = 7;

// CHECKER-3: the least and the most bytes of one.
pub const LEAST_BYTES: u16 = ANSWER_FIELDS_SIZE as u16;

pub const MOST_BYTES: u16 = LEAST_BYTES + trace::ROOM as u16;

// The fields of a recorded answer, without the bytes that its call wrote.
#[derive(Clone, Copy, PartialEq, Eq, Debug)]
pub struct Fields {
    pub number: u16,
    pub released: u8,
    pub age: Age,
}

impl From<Answer> for Fields {
    ghost from_gives = { λ a fields. fields ≡ answer_fields a };

    // CHECKER-14: those of the answer that the rules give.
    fn from(answer: Answer) -> Fields {
        Fields {
            number: answer.number,
            released: u8::from(answer.released),
            age: answer.age,
        }
    }
}

// CHECKER-2, CHECKER-3.
fn answers_to(call: Record, a: Record) -> bool
    ensures { result ≡ answers_to call a }
{
    a.mark == trace::MARK
        && a.kind == ANSWER
        && a.slot == call.slot
        && a.now == call.now
        && (LEAST_BYTES..=MOST_BYTES).contains(&a.length)
}

// The answer that stands directly behind a call's record, whole; or none.
pub fn answer_behind(call: Record, s: &[u8]) -> Option<Record>
    ensures { result ≡ behind_of call s.now }
{
    if s.len() < trace::FIELDS_SIZE {
        return None;
    }
    let a = trace::fields_at(s);
    if answers_to(call, a) && trace::FIELDS_SIZE + a.length as usize <= s.len() {
        Some(a)
    } else {
        None
    }
}

// CHECKER-6: whether recorded bytes are right, for the answer that the rules give and what its call left in the out buffer.
pub fn is_right(recorded: &[u8], answer: Answer, lent: &[u8]) -> bool
    requires { answer.written ≤ length lent.now }
    ensures { result ≡ is_right recorded.now answer lent.now }
{
    recorded.len() >= ANSWER_FIELDS_SIZE
        && fields_of(recorded) == Fields::from(answer)
        && recorded[ANSWER_FIELDS_SIZE..] == lent[..answer.written]
}

// CHECKER-14: the fields of a recorded answer.
pub fn fields_of(recorded: &[u8]) -> Fields
    requires { answer_fields_size ≤ length recorded.now }
    ensures { result ≡ recorded_fields recorded.now }
{
    Fields {
        number: field::number_at(recorded, 0),
        released: field::number_at(recorded, 2),
        age: Age::of_bits(field::number_at(recorded, 3)),
    }
}
