// single steps|packets|messages|writes|calls|tables FILE: takes the inputs of a file, each by itself, and prints what comes of it.
// It is there to be compared with the independent program, which makes such files.
#![tactic(auto)]

ghost use Rattle.std.specs.Prelude.{◌≡◌, ◌+◌, ◌≤◌, length, IfSome};
ghost use Rattle.single.specs.Sizes.{most_input, most_text};

use arrayvec::ArrayVec;
use std::io::{Read, Write};
use window::Input;

// An input fits a window that has so many bytes.
const MOST_INPUT: usize = 262144;

// The bytes of a buffer: two inputs, so that a byte is moved at most once (CUT-6), and the text of one.
const BUFFER: usize = 524288;

// The most bytes of a word of the command line.
const MOST_WORD: usize = 4096;

// What an input is.
#[derive(Clone, Copy)]
enum Kind {
    Step,
    Packet,
    Message,
    Call,
    Table,
    Write,
}

// An open file, what its inputs are, and its name.
#[derive(Drop)]
struct Inputs<'a, R> {
    kind: Kind,
    file: R,
    name: &'a [u8],
}

// What an input is, by the word that asks for it.
fn kind_of(word: &[u8]) -> Option<Kind> {
    text::chosen_of(
        word,
        &[
            (b"steps".as_slice(), Kind::Step),
            (b"packets".as_slice(), Kind::Packet),
            (b"messages".as_slice(), Kind::Message),
            (b"calls".as_slice(), Kind::Call),
            (b"tables".as_slice(), Kind::Table),
            (b"writes".as_slice(), Kind::Write),
        ],
    )
}

// The lines of the input at the front of s, if it is there whole, and how many bytes it takes.
#[tactic(auto, unfolding(text::specs::Text::left))]
fn input_at<const N: usize>(kind: Kind, s: &[u8], out: &mut ArrayVec<u8, N>) -> Option<usize>
    requires { length out.old.items + most_text ≤ N }
    ensures { IfSome result (λ used. used ≤ length s.now) }
{
    match kind {
        Kind::Step => link_lines::step_at(s, out),
        Kind::Packet => link_lines::packet_at(s, out),
        Kind::Message => message_lines::message_at(s, out),
        Kind::Call => call_lines::call_at(s, out),
        Kind::Table => call_lines::table_at(s, out),
        Kind::Write => message_lines::write_at(s, out),
    }
}

// Says that bytes are left which are no whole input.
fn say_cut<E: Write>(err: &mut E, left: usize) {
    if left > 0 {
        text::say(
            err,
            b"single: the file ends within an input, or has one that is too long\n",
        );
    }
}

// The lines of the input that stands first, which is used up; none where there is no whole one, or its lines can't be written.
fn taken<W: Write, E: Write, const N: usize, const B: usize>(
    kind: Kind,
    to: &mut W,
    err: &mut E,
    input: &mut Input<B>,
    out: &mut ArrayVec<u8, N>,
) -> Option<()>
    requires { most_text ≤ N }
{
    out.clear();
    let s = input.unread();
    let Some(used) = input_at(kind, s, out) else {
        say_cut(err, s.len());
        return None;
    };
    text::written(to, err, out.as_slice()).ok()?;
    input.use_up(used);
    Some(())
}

// The next input of the file and its lines. None where there is no next one, or something could not be read or written.
fn turn<R: Read, W: Write, E: Write, const N: usize, const B: usize>(
    inputs: &mut Inputs<R>,
    to: &mut W,
    err: &mut E,
    input: &mut Input<B>,
    out: &mut ArrayVec<u8, N>,
) -> Option<()>
    requires { (most_input ≤ B) × (most_text ≤ N) }
{
    let last = input.top_up(&mut inputs.file, err, inputs.name, MOST_INPUT);
    last.got.ok()?;
    taken(inputs.kind, to, err, input, out)
}

// The inputs of a file, one after the other. A proved loop has to end, so it takes no more turns than a number that no run uses up.
fn all<R: Read, W: Write, E: Write, const N: usize, const B: usize>(
    inputs: &mut Inputs<R>,
    to: &mut W,
    err: &mut E,
    input: &mut Input<B>,
    out: &mut ArrayVec<u8, N>,
)
    requires { (most_input ≤ B) × (most_text ≤ N) }
{
    for _ in 0..u64::MAX {
        if turn(inputs, to, err, input, out).is_none() {
            return;
        }
    }
}

// The inputs of an open file, with buffers of their own.
fn run<R: Read>(rt: &HostRuntime, inputs: &mut Inputs<R>) {
    let mut input = Input::<BUFFER>::empty();
    let mut out = ArrayVec::<u8, BUFFER>::new();
    let mut to = rt.stdout();
    let mut err = rt.stderr();
    all(inputs, &mut to, &mut err, &mut input, &mut out);
}

// What the first argument asks for.
fn asked(rt: &HostRuntime) -> Option<Kind> {
    let mut room = [0u8; MOST_WORD];
    kind_of(text::arg(rt, 1, &mut room).unwrap_or(b""))
}

// Opens the file that the second argument names, and takes its inputs.
fn run_named(rt: &HostRuntime, kind: Kind) {
    let mut room = [0u8; MOST_WORD];
    let name = text::arg(rt, 2, &mut room);
    let mut err = rt.stderr();
    let Some(file) = window::open_file(rt, &mut err, name, b"FILE") else {
        return;
    };
    let mut inputs = Inputs {
        kind,
        file,
        name: name.unwrap_or(b""),
    };
    run(rt, &mut inputs);
}

// Says what the arguments are.
fn usage(rt: &HostRuntime) {
    let mut err = rt.stderr();
    text::say(
        &mut err,
        b"single: the arguments are steps, packets, messages, writes, calls or tables, and FILE\n",
    );
}

fn main(rt: HostRuntime) {
    match asked(&rt) {
        Some(kind) if text::arg_count(&rt) == 3 => run_named(&rt, kind),
        _ => usage(&rt),
    }
}
