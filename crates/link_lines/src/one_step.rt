// One step over two links, at a state and places of its own, and its six lines: three as the links are lent, and the same by readers.
// A step in the file: flags 1 (1 normal link up, 2 redundant link up, 4 responder, 8 strict, 16 first packet), last number 2, normal
// place 4, redundant place 4, our own id 4, normal size 2, redundant size 2, size of the list of callers 2, the bytes of both links, the
// list.
ghost use Rattle.std.specs.Prelude.{◌≡◌, ◌+◌, ◌≤◌, length, IfSome};
ghost use Rattle.field.specs.Row.{fields_of};
ghost use Rattle.link_lines.specs.Step.{step_widths, step_fields_size, step_from, most_link, NoLonger};
ghost use Rattle.link_lines.specs.Step.{most_state_text, most_place_text, most_data_text, most_taken_text, most_step_text};
ghost use Rattle.text.specs.Text.{left, room_of};

use links::{State, Taken};
use text::Room;

// The bytes of the fields before the links' own.
const FIELDS_SIZE: usize = 21;

// The flags.
const NORMAL_UP: u8 = 1;

const REDUNDANT_UP: u8 = 2;

const RESPONDER: u8 = 4;

const STRICT: u8 = 8;

const FIRST: u8 = 16;

// The fields of a step in the file.
#[derive(Clone, Copy)]
struct Step {
    flags: u8,
    last: u16,
    normal_place: u32,
    redundant_place: u32,
    ours: u32,
    normal_size: u16,
    redundant_size: u16,
    callers_size: u16,
}

// A step with what it is lent: the bytes of both links, and the list of callers.
#[derive(Clone, Copy)]
struct Lent<'a> {
    step: Step,
    normal: &'a [u8],
    redundant: &'a [u8],
    callers: &'a [u8],
}

// FIELD-2: the fields that stand at the front of s.
fn step_from(s: &[u8]) -> Step
    requires { step_fields_size ≤ length s.now }
    ensures { result ≡ step_from (fields_of step_widths s.now 0) }
{
    Step {
        flags: field::number_at(s, 0),
        last: field::number_at(s, 1),
        normal_place: field::number_at(s, 3),
        redundant_place: field::number_at(s, 7),
        ours: field::number_at(s, 11),
        normal_size: field::number_at(s, 15),
        redundant_size: field::number_at(s, 17),
        callers_size: field::number_at(s, 19),
    }
}

impl Step {
    // Whether a flag is set.
    fn has(self, flag: u8) -> bool {
        self.flags & flag != 0
    }

    // The state before the step.
    fn state(self) -> State {
        State {
            normal_up: self.has(NORMAL_UP),
            redundant_up: self.has(REDUNDANT_UP),
            responder: self.has(RESPONDER),
            strict: self.has(STRICT),
            first: self.has(FIRST),
            last: self.last,
        }
    }
}

// The state after a step: the links that are up, the first packet, the last number.
fn put_state<O: Room>(out: &mut O, state: State)
    requires { most_state_text ≤ left (O.held out.old) }
    ensures upper_bound { left (O.held out.old) ≤ left (O.held out.new) + most_state_text }
    ensures text_bound { length (O.held out.new).text ≤ length (O.held out.old).text + most_state_text }
    ensures same { room_of (O.held out.new) ≡ room_of (O.held out.old) }
{
    text::put(out, b"state");
    text::put_number(out, u64::from(state.normal_up));
    text::put_number(out, u64::from(state.redundant_up));
    text::put_number(out, u64::from(state.first));
    text::put_number(out, u64::from(state.last));
}

// Version, application type and start of what is handed up, and the end of the line.
fn put_place<O: Room>(out: &mut O, taken: Taken)
    requires { most_place_text ≤ left (O.held out.old) }
    ensures upper_bound { left (O.held out.old) ≤ left (O.held out.new) + most_place_text }
    ensures text_bound { length (O.held out.new).text ≤ length (O.held out.old).text + most_place_text }
    ensures same { room_of (O.held out.new) ≡ room_of (O.held out.old) }
{
    text::put_number(out, u64::from(taken.version));
    text::put_number(out, u64::from(taken.application));
    text::put_number(out, taken.start as u64);
    text::put(out, b"\n");
}

// The user data that is handed up, and the end of the line.
fn put_data<O: Room>(out: &mut O, data: &[u8])
    requires { most_data_text (length «data».now) ≤ left (O.held out.old) }
    ensures upper_bound { left (O.held out.old) ≤ left (O.held out.new) + most_data_text (length «data».now) }
    ensures text_bound { length (O.held out.new).text ≤ length (O.held out.old).text + most_data_text (length «data».now) }
    ensures same { room_of (O.held out.new) ≡ room_of (O.held out.old) }
{
    text::put(out, b"data");
    text::put_bytes(out, data);
    text::put(out, b"\n");
}

// The lines of a step: that of `cut`, then the state, version, application type and start, then the user data.
fn put_taken<O: Room>(out: &mut O, taken: Taken, data: &[u8])
    requires { most_taken_text (length «data».now) ≤ left (O.held out.old) }
    ensures upper_bound { left (O.held out.old) ≤ left (O.held out.new) + most_taken_text (length «data».now) }
    ensures text_bound { length (O.held out.new).text ≤ length (O.held out.old).text + most_taken_text (length «data».now) }
    ensures same { room_of (O.held out.new) ≡ room_of (O.held out.old) }
{
    recording::put_line(out, taken);
    put_state(out, taken.state);
    put_place(out, taken);
    put_data(out, data);
}

impl<'a> Lent<'a> {
    // The step as the links are lent, and the user data that it hands up.
    #[tactic(auto, using(crate::proofs::Parts::user_data_within))]
    fn take(self) -> (Taken, &'a [u8])
        requires { NoLonger self.normal.now self.redundant.now }
        ensures { length result.1.now ≤ most_link }
    {
        let taken = links::take(
            self.normal,
            self.step.normal_place as usize,
            self.redundant,
            self.step.redundant_place as usize,
            self.callers,
            self.step.ours,
            self.step.state(),
        );
        (
            taken,
            links::user_data_of(self.normal, self.redundant, taken),
        )
    }

    // The same by readers.
    #[tactic(auto, using(crate::proofs::Parts::user_data_within))]
    fn take_by_readers(self) -> (Taken, &'a [u8])
        requires { NoLonger self.normal.now self.redundant.now }
        ensures { length result.1.now ≤ most_link }
    {
        let normal_place = self.step.normal_place as usize;
        let redundant_place = self.step.redundant_place as usize;
        let taken = link_reader::take_by_readers(
            self.normal,
            normal_place,
            self.redundant,
            redundant_place,
            self.callers,
            self.step.ours,
            self.step.state(),
        );
        let data = link_reader::user_data_by_readers(
            self.normal,
            normal_place,
            self.redundant,
            redundant_place,
            taken,
        );
        (taken, data)
    }
}

// The step in both ways, and its lines.
fn put_step<O: Room>(out: &mut O, lent: Lent)
    requires { NoLonger lent.normal.now lent.redundant.now × (most_step_text ≤ left (O.held out.old)) }
    ensures upper_bound { left (O.held out.old) ≤ left (O.held out.new) + most_step_text }
    ensures text_bound { length (O.held out.new).text ≤ length (O.held out.old).text + most_step_text }
    ensures same { room_of (O.held out.new) ≡ room_of (O.held out.old) }
{
    let (taken, data) = lent.take();
    put_taken(out, taken, data);
    let (taken, data) = lent.take_by_readers();
    put_taken(out, taken, data);
}

// The step at the front of s, if it is there whole, and how many bytes it takes.
pub fn step_at<O: Room>(s: &[u8], out: &mut O) -> Option<usize>
    requires { most_step_text ≤ left (O.held out.old) }
    ensures text { left (O.held out.old) ≤ left (O.held out.new) + most_step_text }
    ensures len { length (O.held out.new).text ≤ length (O.held out.old).text + most_step_text }
    ensures same { room_of (O.held out.new) ≡ room_of (O.held out.old) }
    ensures used { IfSome result (λ used. used ≤ length s.now) }
{
    let (fields, rest) = s.split_at_checked(FIELDS_SIZE)?;
    let step = step_from(fields);
    let (normal, rest) = rest.split_at_checked(usize::from(step.normal_size))?;
    let (redundant, rest) = rest.split_at_checked(usize::from(step.redundant_size))?;
    let (callers, rest) = rest.split_at_checked(usize::from(step.callers_size))?;
    put_step(
        out,
        Lent {
            step,
            normal,
            redundant,
            callers,
        },
    );
    Some(s.len() - rest.len())
}
