// Big-endian fields of w bytes in a slice: read and written, once over the width.
#![tactic(auto)]

ghost use Rattle.std.specs.Prelude.{◌≡◌, ℕ, ◌+◌, ◌^◌, ◌<◌, ◌≤◌, length};
ghost use Rattle.std.proofs.lemmas.List.Edits.{sets};
ghost use Rattle.std.proofs.Common.{rules};
ghost use Rattle.field.specs.Field.{field_of, bytes_of};

// A type that holds the number of a field: as wide as the field is.
pub trait Wide {
    const WIDTH: usize;

    ghost WIDTH: { ℕ };

    ghost number: { Self → ℕ };

    fn of_number(x: u32) -> Self
        requires { x < 256 ^ WIDTH }
        ensures { number result ≡ x };

    ghost at_most_4: { WIDTH ≤ 4 };
}

impl Wide for u8 {
    const WIDTH: usize = 1;

    ghost WIDTH = { 1 };

    ghost number = { λ x. x };

    ghost at_most_4 = { Prim.search rules };

    fn of_number(x: u32) -> u8 {
        x as u8
    }
}

impl Wide for u16 {
    const WIDTH: usize = 2;

    ghost WIDTH = { 2 };

    ghost number = { λ x. x };

    ghost at_most_4 = { Prim.search rules };

    fn of_number(x: u32) -> u16 {
        x as u16
    }
}

impl Wide for u32 {
    const WIDTH: usize = 4;

    ghost WIDTH = { 4 };

    ghost number = { λ x. x };

    ghost at_most_4 = { Prim.search rules };

    fn of_number(x: u32) -> u32 {
        x
    }
}

// The number in the w bytes of s from at.
pub fn read(s: &[u8], at: usize, w: usize) -> u32
    requires { (w ≤ 4) × (at + w ≤ length s.now) }
    ensures { (result ≡ field_of s.now at w) × (result < 256 ^ w) }
{
    let mut r: u32 = 0;
    for byte in &s[at..at + w] {
        r = r * 256 + u32::from(*byte);
    }
    r
}

// The number in as many bytes of s, from at, as the type asks for.
pub fn number_at<N: Wide>(s: &[u8], at: usize) -> N
    requires { at + N.WIDTH ≤ length s.now }
    ensures { N.number result ≡ field_of s.now at N.WIDTH }
{
    N::of_number(read(s, at, N::WIDTH))
}

// Stays: a slice and a place in it: the clauses of `write` and `copy` speak of the whole slice (`sets`), what is beside the field too.

// The w bytes of x, from at; of a larger x its last w bytes.
pub fn write(out: &mut [u8], at: usize, w: usize, x: u32)
    requires { at + w ≤ length out.old }
    ensures { out.new ≡ sets out.old at (bytes_of w x) }
{
    let mut left = x;
    for i in (0..w).rev() {
        out[at + i] = (left % 256) as u8;
        left /= 256;
    }
}

// The bytes of s, from at.
// Stays: a loop: with `copy_from_slice` the archive for C would need `memmove`, and a host without a C library couldn't link it.
// It stands alone, where its loop has the registers that it needs: within a large caller it reads them from the stack at each turn.
#[inline(never)]
pub fn copy(out: &mut [u8], at: usize, s: &[u8])
    requires { at + length s.now ≤ length out.old }
    ensures { out.new ≡ sets out.old at s.now }
{
    for (i, byte) in s.iter().enumerate() {
        out[at + i] = *byte;
    }
}
