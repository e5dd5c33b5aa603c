// The worked numbers (NUM-1 to NUM-16) that concern clocks, numbers and fields, run and printed: stdout has what must come.
// The starred ones are proved in the table of specs/Worked, and there alone (OPEN-4).
#![tactic(auto)]

ghost use Rattle.std.specs.Prelude.{◌≡◌, pos, ◌-ℤ◌};
ghost use Rattle.clock.specs.Clock.{centred, age_of};
ghost use Rattle.worked_numbers.specs.Worked.{offsets};

use clock::{Age, Centred, Count, Offset, Verdict};
use connection::Offsets;
use std::io;
use std::io::Print;

// Of one exchange: our message sent, its reported arrival, the answer's arrival, its stamp.
fn exchange(sent: u32, reported: u32, arrived: u32, stamp: u32) -> Offsets
    ensures { result ≡ offsets (centred (pos sent -ℤ pos reported)) (centred (pos arrived -ℤ pos stamp)) }
{
    let min = Offset::between(Count(sent), Count(reported));
    let max = Offset::between(Count(arrived), Count(stamp));
    Offsets { min, max }
}

fn initiator_offsets() -> Offsets {
    exchange(1000, 170, 1080, 200)
}

fn responder_offsets() -> Offsets {
    exchange(200, 1080, 260, 1100)
}

// E is 0.
fn age(now: u32, stamp: u32, o: Offsets) -> Age
    ensures { result.0 ≡ age_of now stamp 0 o.min.0 }
{
    Age::of(Count(now), Count(stamp), 0, o.min)
}

#[derive(Clone, Copy)]
struct Ages {
    later: Age,
    present: Age,
    future: Age,
    wrapped: Age,
    responder: Age,
}

fn worked_ages() -> Ages {
    let o = initiator_offsets();
    let p = responder_offsets();
    Ages {
        later: age(1170, 300, o),
        present: age(1130, 300, o),
        future: age(1129, 300, o),
        wrapped: age(860, 4294967290, o),
        responder: age(365, 1200, p),
    }
}

fn distance() -> u16 {
    number::distance_of(0, 65535)
}

// An offset as a message carries it: the sign, then the magnitude.
fn carried(o: Offset, out: &mut [u8; 5]) {
    let c = o.sign_magnitude();
    field::write(out, 0, 1, u32::from(c.sign));
    field::write(out, 1, 4, c.magnitude);
}

fn offset_line(rt: &impl Print, what: &str, offset: Offset) -> io::Result<()> {
    let number = offset.number();
    println!(rt; "{what}{number}")
}

fn verdict_line(rt: &impl Print, what: &str, verdict: Verdict) -> io::Result<()> {
    let number = match verdict {
        Verdict::Future => 206,
        Verdict::Late => 205,
        Verdict::Fresh => 0,
    };
    println!(rt; "{what}{number}")
}

fn bytes_line(rt: &impl Print, what: &str, bytes: [u8; 5]) -> io::Result<()> {
    print!(rt; "{what}")?;
    for byte in bytes {
        print!(rt; " {byte:02x}")?;
    }
    println!(rt)
}

fn main(rt: HostRuntime) -> io::Result<()> {
    let o = initiator_offsets();
    let p = responder_offsets();
    offset_line(&rt, "initiator min ", o.min)?;
    offset_line(&rt, "initiator max ", o.max)?;
    offset_line(&rt, "responder min ", p.min)?;
    offset_line(&rt, "responder max ", p.max)?;
    let ages = worked_ages();
    verdict_line(&rt, "age 40, T_max 40: ", ages.later.verdict_of(40))?;
    verdict_line(&rt, "age 40, T_max 39: ", ages.later.verdict_of(39))?;
    verdict_line(&rt, "age 0: ", ages.present.verdict_of(40))?;
    verdict_line(&rt, "age -1: ", ages.future.verdict_of(40))?;
    verdict_line(&rt, "age 36, T_max 36: ", ages.wrapped.verdict_of(36))?;
    verdict_line(&rt, "age 36, T_max 35: ", ages.wrapped.verdict_of(35))?;
    verdict_line(&rt, "age 45, T_max 45: ", ages.responder.verdict_of(45))?;
    verdict_line(&rt, "age 45, T_max 44: ", ages.responder.verdict_of(44))?;
    let d = distance();
    println!(&rt; "last 65535, next 0: d = {d}")?;
    let mut out = [0u8; 5];
    carried(p.min, &mut out);
    bytes_line(&rt, "-880 is", out)
}
