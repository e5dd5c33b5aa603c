// Recorded links cut into packets: one step over the windows of two links, and the text that is printed for it; ids as words.
#![tactic(auto)]

ghost use Rattle.std.specs.Prelude.{◌≡◌, true, false, ◌+◌, ◌^◌, ◌≤◌, ◌<◌, ◌++◌, length};
ghost use Rattle.text.specs.Text.{put, left, room_of};
ghost use Rattle.window.specs.Window.{low_of};
ghost use Rattle.packet.specs.Sizes.{most_packet};
ghost use Rattle.recording.specs.Printed.{heading, link_name, handed_up_text, line_of, most_link_name, most_handed_up, most_line};
ghost use Rattle.recording.specs.Progress.{start_of, windowed, taken_at, last_answer, counted_of, stepped_of};
ghost use Rattle.recording.specs.Ids.{digit_value, id_of};
ghost use Rattle.recording.specs.Progress.{UsesNoMore, CountsItsData, Lies, AdvancedTo};

use links::{State, Taken};
use text::Room;
use window::Window;

// The most bytes of a link's name, and of a line: the name, five numbers, and its end.
const MOST_LINK_NAME: usize = 9;

pub const MOST_LINE: usize = MOST_LINK_NAME + 5 * text::MOST_NUMBER + 1;

// CUT-5: how many digits an id has.
const ID_DIGITS: usize = 8;

// The windows of the two links, the state of the steps, how many packets were handed up, and whether the last step answered 301 or 308.
#[derive(Clone, Copy)]
pub struct Progress {
    pub normal: Window,
    pub redundant: Window,
    pub state: State,
    pub handed_up: u64,
    pub last: bool,
}

impl Progress {
    // Before the first step.
    pub fn start(state: State) -> Progress
        ensures { result ≡ start_of state }
    {
        Progress {
            normal: Window::empty(),
            redundant: Window::empty(),
            state,
            handed_up: 0,
            last: false,
        }
    }

    // The same with other windows.
    pub fn windowed(self, normal: Window, redundant: Window) -> Progress
        ensures { result ≡ windowed normal redundant self }
    {
        Progress {
            normal,
            redundant,
            ..self
        }
    }
}

// The heading.
pub fn put_heading<O: Room>(out: &mut O)
    requires { most_line ≤ left (O.held out.old) }
    ensures put { O.held out.new ≡ put heading (O.held out.old) }
    ensures text { (O.held out.new).text ≡ (O.held out.old).text ++ heading }
    ensures same { room_of (O.held out.new) ≡ room_of (O.held out.old) }
{
    text::put(out, b"link answer used type number data\n");
}

// The name of a link.
fn put_link<O: Room>(out: &mut O, normal: bool)
    requires { most_link_name ≤ left (O.held out.old) }
    ensures put { O.held out.new ≡ put (link_name normal) (O.held out.old) }
    ensures upper_bound { left (O.held out.old) ≤ left (O.held out.new) + most_link_name }
    ensures text_bound { length (O.held out.new).text ≤ length (O.held out.old).text + most_link_name }
    ensures same { room_of (O.held out.new) ≡ room_of (O.held out.old) }
{
    if normal {
        text::put(out, b"normal");
    } else {
        text::put(out, b"redundant");
    }
}

// The type, the number and the count of user data bytes, and the end of the line.
#[tactic(auto, using(text::proofs::Puts::put_put))]
fn put_handed_up<O: Room>(out: &mut O, kind: u8, number: u16, size: usize)
    requires { most_handed_up ≤ left (O.held out.old) }
    ensures put { O.held out.new ≡ put (handed_up_text kind number size) (O.held out.old) }
    ensures upper_bound { left (O.held out.old) ≤ left (O.held out.new) + most_handed_up }
    ensures text_bound { length (O.held out.new).text ≤ length (O.held out.old).text + most_handed_up }
    ensures same { room_of (O.held out.new) ≡ room_of (O.held out.old) }
{
    text::put_number(out, u64::from(kind));
    text::put_number(out, u64::from(number));
    text::put_number(out, size as u64);
    text::put(out, b"\n");
}

// The line of a step, whose user data has so many bytes.
#[tactic(auto, using(text::proofs::Puts::put_put))]
fn put_counted<O: Room>(out: &mut O, taken: Taken, size: usize)
    requires most_line_in_bounds { most_line ≤ left (O.held out.old) }
    requires size_value { size ≡ taken.size }
    ensures put { O.held out.new ≡ put (line_of taken) (O.held out.old) }
    ensures upper_bound { left (O.held out.old) ≤ left (O.held out.new) + most_line }
    ensures text_bound { length (O.held out.new).text ≤ length (O.held out.old).text + most_line }
    ensures same { room_of (O.held out.new) ≡ room_of (O.held out.old) }
{
    put_link(out, taken.normal);
    text::put_number(out, u64::from(taken.answer));
    text::put_number(out, taken.used as u64);
    put_handed_up(out, taken.kind, taken.number, size);
}

// The line of a step.
pub fn put_line<O: Room>(out: &mut O, taken: Taken)
    requires { most_line ≤ left (O.held out.old) }
    ensures put { O.held out.new ≡ put (line_of taken) (O.held out.old) }
    ensures upper_bound { left (O.held out.old) ≤ left (O.held out.new) + most_line }
    ensures len { length (O.held out.new).text ≤ length (O.held out.old).text + most_line }
    ensures same { room_of (O.held out.new) ≡ room_of (O.held out.old) }
{
    put_counted(out, taken, taken.size);
}

// One step over the two windows, through a reader of each, by the list of callers and our own id.
fn taken_at<'a>(
    normal: &'a [u8],
    redundant: &'a [u8],
    callers: &'a [u8],
    ours: u32,
    p: Progress,
) -> Taken
    requires { Lies p (length normal.now) (length redundant.now) }
    ensures { result ≡ taken_at normal.now redundant.now callers.now ours p }
{
    link_reader::take_by_readers(
        &normal[..p.normal.to],
        p.normal.from,
        &redundant[..p.redundant.to],
        p.redundant.from,
        callers,
        ours,
        p.state,
    )
}

// How many bytes of user data a step hands up: those of the part that is handed up are counted, of whichever window held the packet.
fn count_data<'a>(normal: &'a [u8], redundant: &'a [u8], p: Progress, taken: Taken) -> usize
    requires lies { Lies p (length normal.now) (length redundant.now) }
    requires counts_its_data { CountsItsData normal.now redundant.now p taken }
    ensures { result ≡ taken.size }
{
    let part = link_reader::user_data_by_readers(
        &normal[..p.normal.to],
        p.normal.from,
        &redundant[..p.redundant.to],
        p.redundant.from,
        taken,
    );
    part.len()
}

// Whether a step was the last.
#[tactic(auto, unfolding(crate::specs::Progress::last_answer))]
fn last_answer(answer: u16) -> bool
    ensures { result ≡ last_answer answer }
{
    matches!(answer, 301 | 308)
}

// The count of packets handed up, after a step.
#[tactic(auto, unfolding(crate::specs::Progress::counted_of))]
fn counted_of(handed_up: u64, answer: u16) -> u64
    requires { handed_up + 1 < 2 ^ 64 }
    ensures value { result ≡ counted_of handed_up answer }
    ensures upper_bound { result ≤ handed_up + 1 }
{
    if answer == 0 {
        handed_up + 1
    } else {
        handed_up
    }
}

// The progress after a step.
#[tactic(auto, unfolding(crate::specs::Progress::stepped_of))]
fn stepped_of(p: Progress, taken: Taken) -> Progress
    requires uses_no_more { UsesNoMore taken p }
    requires handed_up_bound { p.handed_up + 1 < 2 ^ 64 }
    ensures { result ≡ stepped_of taken p }
{
    let stepped = Progress {
        state: taken.state,
        handed_up: counted_of(p.handed_up, taken.answer),
        last: last_answer(taken.answer),
        ..p
    };
    if taken.normal {
        Progress {
            normal: p.normal.used(taken.used),
            ..stepped
        }
    } else {
        Progress {
            redundant: p.redundant.used(taken.used),
            ..stepped
        }
    }
}

// One step over windows that are not low, so that it is the step over the whole files (proofs/Whole); its line is put into the out buffer.
// Stays: the bound on the count, asked of a step and its two parts: a step adds to it, so it is no fact of a Progress.
pub fn advance<'a, O: Room>(
    normal: &'a [u8],
    redundant: &'a [u8],
    out: &mut O,
    callers: &'a [u8],
    ours: u32,
    p: Progress,
) -> Progress
    requires lies { Lies p (length normal.now) (length redundant.now) }
    requires most_line_in_bounds { most_line ≤ left (O.held out.old) }
    requires normal_value { (low_of most_packet p.normal ≡ false) × (low_of most_packet p.redundant ≡ false) }
    requires handed_up_bound { p.handed_up + 1 < 2 ^ 64 }
    ensures advanced_to { AdvancedTo normal.now redundant.now callers.now ours p (O.held out.old).text (O.held out.new).text result }
    ensures put { O.held out.new ≡ put (line_of (taken_at normal.now redundant.now callers.now ours p)) (O.held out.old) }
    ensures same { room_of (O.held out.new) ≡ room_of (O.held out.old) }
    ensures lies_2 { Lies result (length normal.now) (length redundant.now)
        × (result.handed_up ≤ p.handed_up + 1) × (left (O.held out.old) ≤ left (O.held out.new) + most_line) }
    ensures line_len { length (O.held out.new).text ≤ length (O.held out.old).text + most_line }
{
    let taken = taken_at(normal, redundant, callers, ours, p);
    let size = count_data(normal, redundant, p, taken);
    put_counted(out, taken, size);
    stepped_of(p, taken)
}

// CUT-5: the value of a hexadecimal digit; none of any other byte.
#[tactic(auto, unfolding(crate::specs::Ids::digit_value))]
fn digit_value(byte: u8) -> Option<u8>
    ensures { result ≡ digit_value byte }
{
    match byte {
        b'0'..=b'9' => Some(byte - b'0'),
        b'A'..=b'F' => Some(byte - b'A' + 10),
        b'a'..=b'f' => Some(byte - b'a' + 10),
        _ => None,
    }
}

// CUT-5: the id that a word of eight hexadecimal digits says.
pub fn id_of(word: &[u8]) -> Option<u32>
    ensures { result ≡ id_of word.now }
{
    if word.len() != ID_DIGITS {
        return None;
    }
    let mut id: u32 = 0;
    for byte in word {
        id = id * 16 + u32::from(digit_value(*byte)?);
    }
    Some(id)
}
