// cut initiator|responder strict|loose NORMAL REDUNDANT [OURS [CALLER ..]]: takes packets from two recorded links, and prints each step.
#![tactic(auto)]

ghost use Rattle.std.specs.Prelude.{◌≡◌, false, ◌+◌, ◌^◌, ◌≤◌, ◌<◌, [], length, IfSome};
ghost use Rattle.window.specs.Window.{Within};
ghost use Rattle.window.specs.MovedOnce.{RoomForTwo};
ghost use Rattle.packet.specs.Sizes.{most_packet};
ghost use Rattle.recording.specs.Printed.{most_line};
ghost use Rattle.recording.specs.Progress.{Lies};
ghost use Rattle.recording.specs.Whole.{WindowToppedUp, WindowsToppedUp, TurnOf, PrintedToTheEnd, PrintedWhole, BothHaveRoom, BothMovedNoMore, Headed};

use arrayvec::ArrayVec;
use links::State;
use packet::MOST_PACKET;
use recording::{MOST_LINE, Progress};
use std::fs::File;
use std::io::{Read, Write};
use window::Window;

// The longest word that an argument is held against has fewer bytes.
const MOST_WORD: usize = 16;

// The most bytes of a file's name.
const MOST_NAME: usize = 4096;

// The out buffer has so many bytes.
const LARGE_BUFFER: usize = 65536;

// CUT-6: how many bytes a link's buffer has: two of the longest packets, so that none is moved twice, and more, so that few are moved.
const LINK_BUFFER: usize = 262144;

// CUT-5: room for the list of callers, more bytes than the words of a command line fill.
const LIST: usize = 2097152;

// CUT-5: the places of our own id and of the first caller's among the arguments.
const OURS: usize = 5;

const FIRST_CALLER: usize = 6;

// The most bytes of what is said of a word that is no id.
const MOST_SAID: usize = 96;

// More turns than any run takes.
const MOST_TURNS: u64 = 0xFFFF_FFFF_FFFF_FFFE;

// An open file of a link, with its name.
#[derive(Drop)]
struct Recorded<'a, R> {
    file: R,
    name: &'a [u8],
}

// The files of the two links.
#[derive(Drop)]
struct Files<'a, R> {
    normal: Recorded<'a, R>,
    redundant: Recorded<'a, R>,
}

// What the steps go by: the list of callers, our own id, and the state that they start from.
#[derive(Clone, Copy)]
struct Told<'a> {
    callers: &'a [u8],
    ours: u32,
    state: State,
}

impl<'a, R: Read> Recorded<'a, R> {
    // Tops a window up for steps that look at `most` bytes at the most; none where the file can't be read, which is said by then. It stays
    // a call, since what a read answers is large, and few steps find a window that is low.
    #[inline(never)]
    fn refilled<E: Write>(
        &mut self,
        err: &mut E,
        buffer: &mut [u8],
        window: Window,
        most: usize,
    ) -> Option<Window>
        requires { Within window (length buffer.old) × (most ≤ length buffer.old) }
        ensures { IfSome result (λ up. WindowToppedUp most buffer.old window buffer.new up × Within up (length buffer.old)) }
    {
        let up = window::topped_up(&mut self.file, err, self.name, buffer, window, most);
        up.last.got.ok()?;
        Some(up.window)
    }

    // The same; a window that is not low is given back here.
    fn topped_up<E: Write>(
        &mut self,
        err: &mut E,
        buffer: &mut [u8],
        window: Window,
        most: usize,
    ) -> Option<Window>
        requires { Within window (length buffer.old) × (most ≤ length buffer.old) }
        ensures { IfSome result (λ up. WindowToppedUp most buffer.old window buffer.new up × Within up (length buffer.old)) }
    {
        if !window.low(most) {
            return Some(window);
        }
        self.refilled(err, buffer, window, most)
    }
}

// Tops both windows of a progress up; the second one only where the first file could be read.
fn both_topped_up<R: Read, E: Write>(
    files: &mut Files<R>,
    err: &mut E,
    normal: &mut [u8],
    redundant: &mut [u8],
    p: Progress,
) -> Option<Progress>
    requires lies { Lies p (length normal.old) (length redundant.old) }
    requires both_have_room { BothHaveRoom (length normal.old) (length redundant.old) }
    ensures { IfSome result (λ lent. WindowsToppedUp normal.old redundant.old p normal.new redundant.new lent
        × Lies lent (length normal.old) (length redundant.old)) }
{
    let first = files.normal.topped_up(err, normal, p.normal, MOST_PACKET)?;
    let second = files
        .redundant
        .topped_up(err, redundant, p.redundant, MOST_PACKET)?;
    Some(p.windowed(first, second))
}

// Writes the rest of the text: with what was written before, it is what is printed for the bytes that were read of both files, by what the
// steps go by (recording's proofs/Turns), which is here for the contract alone. No contract can say what is read from a file or written to
// one: that the calls which read hand over a file's next bytes is all that stands between the files and the printed text. What
// `make_room_in` and `written` write, their contracts say of a writer whose bytes are known.
fn finish<W: Write, E: Write>(to: &mut W, err: &mut E, out: &[u8], told: Told) -> Option<()>
    requires { PrintedWhole told.callers.now told.ours told.state out.now }
{
    text::written(to, err, out).ok()
}

// Puts the last line, and finishes.
fn put_last<W: Write, E: Write, const N: usize>(
    to: &mut W,
    err: &mut E,
    out: &mut ArrayVec<u8, N>,
    handed_up: u64,
    told: Told,
) -> Option<()>
    requires most_line_in_bounds { most_line ≤ N }
    requires printed_to_the_end { PrintedToTheEnd told.callers.now told.ours told.state out.old.items handed_up }
{
    text::make_room_in(to, err, out, MOST_LINE).ok()?;
    text::put_end(out, handed_up);
    finish(to, err, out.as_slice(), told)
}

// One turn: room for a line, the windows topped up, and a step with its line. CUT-6: refills move no more bytes than they read. None where
// a file could not be read, or what the out buffer held not be written, which is said by then.
fn turn<R: Read, W: Write, E: Write, const N: usize>(
    files: &mut Files<R>,
    to: &mut W,
    err: &mut E,
    normal: &mut [u8],
    redundant: &mut [u8],
    out: &mut ArrayVec<u8, N>,
    told: Told,
    p: Progress,
) -> Option<Progress>
    requires lies { Lies p (length normal.old) (length redundant.old) }
    requires both_have_room { BothHaveRoom (length normal.old) (length redundant.old) }
    requires most_line_in_bounds { most_line ≤ N }
    requires handed_up_bound { p.handed_up + 1 < 2 ^ 64 }
    requires both_moved_no_more { BothMovedNoMore p (length normal.old) (length redundant.old) }
    ensures { IfSome result (λ after. TurnOf normal.old redundant.old told.entry.callers.now told.entry.ours p
        N out.old.items normal.new redundant.new out.new.items after
        × Lies after (length normal.old) (length redundant.old) × (after.handed_up ≤ p.handed_up + 1)
        × BothMovedNoMore after (length normal.old) (length redundant.old)) }
{
    text::make_room_in(to, err, out, MOST_LINE).ok()?;
    let lent = both_topped_up(files, err, normal, redundant, p)?;
    Some(recording::advance(normal, redundant, out, told.callers, told.ours, lent))
}

// Turns until a step answers 301 or 308, then the last line. A proved loop has to end, and nothing says that a file does, so the loop
// takes no more turns than a number that no run uses up.
fn cut_links<R: Read, W: Write, E: Write, const N: usize>(
    files: &mut Files<R>,
    to: &mut W,
    err: &mut E,
    normal: &mut [u8],
    redundant: &mut [u8],
    out: &mut ArrayVec<u8, N>,
    told: Told,
) -> Option<()>
    requires { Headed normal.old redundant.old N out.old.items }
{
    let mut progress = Progress::start(told.state);
    for _ in 0..MOST_TURNS {
        progress = turn(files, to, err, normal, redundant, out, told, progress)?;
        if progress.last {
            return put_last(to, err, out, progress.handed_up, told);
        }
    }
    Some(())
}

// The heading, then the turns.
#[tactic(auto, unfolding(text::specs::Text::left))]
fn print_all<R: Read, W: Write, E: Write, const N: usize>(
    files: &mut Files<R>,
    to: &mut W,
    err: &mut E,
    normal: &mut [u8],
    redundant: &mut [u8],
    out: &mut ArrayVec<u8, N>,
    told: Told,
) -> Option<()>
    requires both_have_room { BothHaveRoom (length normal.old) (length redundant.old) }
    requires most_line_in_bounds { most_line ≤ N }
    requires none_held { out.old.items ≡ [] }
{
    recording::put_heading(out);
    cut_links(files, to, err, normal, redundant, out, told)
}

// CUT-6: a link's buffer. The first `ensures` gives the length, which lending it asks for.
fn link_buffer() -> [u8; LINK_BUFFER]
    ensures value { 262144 ≡ length result }
    ensures room_for_two { RoomForTwo most_packet (length result) }
{
    [0; LINK_BUFFER]
}

// The buffers of two open files. What fails is said where it does.
fn cut_files<R: Read>(rt: &HostRuntime, files: &mut Files<R>, told: Told) {
    let mut normal = link_buffer();
    let mut redundant = link_buffer();
    let mut out = ArrayVec::<u8, LARGE_BUFFER>::new();
    let mut to = rt.stdout();
    let mut err = rt.stderr();
    let _ = print_all(
        files,
        &mut to,
        &mut err,
        &mut normal,
        &mut redundant,
        &mut out,
        told,
    );
}

// Opens the file that an argument names; or says why it can't, by the name or by the word that stands for it.
fn opened<'a>(
    rt: &HostRuntime,
    i: usize,
    room: &'a mut [u8],
    word: &[u8],
) -> Option<Recorded<'a, File>> {
    let name = text::arg(rt, i, room);
    let mut err = rt.stderr();
    let file = window::open_file(rt, &mut err, name, word)?;
    Some(Recorded {
        file,
        name: name.unwrap_or(b""),
    })
}

// Opens both files and cuts them.
fn cut_named(rt: &HostRuntime, told: Told) -> Option<()> {
    let mut normal_room = [0u8; MOST_NAME];
    let normal = opened(rt, 3, &mut normal_room, b"NORMAL")?;
    let mut redundant_room = [0u8; MOST_NAME];
    let redundant = opened(rt, 4, &mut redundant_room, b"REDUNDANT")?;
    let mut files = Files { normal, redundant };
    cut_files(rt, &mut files, told);
    Some(())
}

// What an argument stands for, in a list of words. A longer one than any is none of them.
fn chosen(rt: &HostRuntime, i: usize, words: &[(&[u8], bool)]) -> Option<bool> {
    let mut room = [0u8; MOST_WORD];
    text::chosen_of(text::arg(rt, i, &mut room).unwrap_or(b""), words)
}

// Says a line on standard error.
fn say(rt: &HostRuntime, line: &[u8]) {
    let mut err = rt.stderr();
    text::say(&mut err, line);
}

// One line that says what the arguments are.
fn usage(rt: &HostRuntime) {
    say(
        rt,
        b"cut: the arguments are initiator strict|loose NORMAL REDUNDANT, or responder strict|loose NORMAL REDUNDANT OURS [CALLER ...]\n",
    );
}

// One line that says which argument is no id.
#[tactic(auto, unfolding(text::specs::Text::left))]
fn say_no_id(rt: &HostRuntime, i: usize) {
    let mut line = ArrayVec::<u8, MOST_SAID>::new();
    text::put(&mut line, b"cut: argument ");
    text::put_decimal(&mut line, i as u64);
    text::put(&mut line, b" is no id of eight hexadecimal digits\n");
    say(rt, line.as_slice());
}

// CUT-5: the id that an argument says. One that is missing or longer than the word's buffer is read as empty, which is no id; that it is
// none is said.
fn id_at(rt: &HostRuntime, i: usize) -> Option<u32> {
    let mut room = [0u8; MOST_WORD];
    let id = recording::id_of(text::arg(rt, i, &mut room).unwrap_or(b""));
    if id.is_none() {
        say_no_id(rt, i);
    }
    id
}

// CUT-5: the callers' ids, one behind the other, put behind a list; or says what is wrong with one.
fn read_callers<const N: usize>(rt: &HostRuntime, list: &mut ArrayVec<u8, N>) -> Option<()> {
    for i in FIRST_CALLER..text::arg_count(rt) {
        let id = id_at(rt, i)?;
        if list.try_extend_from_slice(&id.to_be_bytes()).is_err() {
            say(
                rt,
                b"cut: there are more callers than the list has room for\n",
            );
            return None;
        }
    }
    Some(())
}

// Cuts as a responder, who is told our own id and who may call.
fn cut_called(rt: &HostRuntime, state: State) -> Option<()> {
    let ours = id_at(rt, OURS)?;
    let mut list = ArrayVec::<u8, LIST>::new();
    read_callers(rt, &mut list)?;
    let told = Told {
        callers: list.as_slice(),
        ours,
        state,
    };
    cut_named(rt, told)
}

// Whether so many arguments, the program's name among them, are those of the role: CUT-5.
fn right_count(responder: bool, count: usize) -> bool {
    if responder {
        OURS < count
    } else {
        count == OURS
    }
}

// The state that the steps start from, by the role and the setting that the arguments choose; none where they are not right.
fn chosen_state(rt: &HostRuntime) -> Option<State> {
    let responder = chosen(
        rt,
        1,
        &[
            (b"responder".as_slice(), true),
            (b"initiator".as_slice(), false),
        ],
    )?;
    let strict = chosen(
        rt,
        2,
        &[(b"strict".as_slice(), true), (b"loose".as_slice(), false)],
    )?;
    if right_count(responder, text::arg_count(rt)) {
        Some(links::fresh_state(responder, strict))
    } else {
        None
    }
}

fn main(rt: HostRuntime) {
    let Some(state) = chosen_state(&rt) else {
        usage(&rt);
        return;
    };
    // What keeps it from cutting is said by then.
    let _ = if state.responder {
        cut_called(&rt, state)
    } else {
        let told = Told {
            callers: b"",
            ours: 0,
            state,
        };
        cut_named(&rt, told)
    };
}
