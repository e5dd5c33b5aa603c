// Counts, offsets and ages: KIND-1.
#![tactic(auto)]

ghost use Rattle.std.specs.Prelude.{◌≡◌, ℤ, pos, ◌+ℤ◌, ◌-ℤ◌, neg_ℤ, int_lt, unsigned_abs};
ghost use Rattle.clock.specs.Clock.{wrapped, centred, goes_back, wait_of, age_of, no_age, verdict_of, sign_magnitude_of, offset_read};

// A clock's count of 10 ms ticks, mod 2^32.
#[derive(Clone, Copy, PartialEq, Eq, Debug)]
pub struct Count(pub u32);

// Own count minus the peer's.
#[derive(Clone, Copy, PartialEq, Eq, Debug)]
pub struct Offset(pub i32);

// How old a message is; negative where it seems to come from the future.
#[derive(Clone, Copy, PartialEq, Eq, Debug)]
pub struct Age(pub i32);

// What an age says of a message: 206, 205, or handed up.
#[derive(Clone, Copy, PartialEq, Eq, Debug)]
pub enum Verdict {
    Future,
    Late,
    Fresh,
}

// An offset as a message carries it.
#[derive(Clone, Copy, PartialEq, Eq, Debug)]
pub struct SignMagnitude {
    pub sign: u8,
    pub magnitude: u32,
}

// KIND-3: a number taken in -2^31 .. 2^31-1. Offsets and ages are such numbers, of two kinds.
pub trait Centred: Copy {
    ghost number: { Self → ℤ };

    fn number(self) -> i32
        ensures { result ≡ number self };

    fn of_number(z: i32) -> Self
        ensures { number result ≡ z };

    // The one that is x mod 2^32.
    final fn of_bits(x: u32) -> Self
        ensures { number result ≡ centred (pos x) }
    {
        Self::of_number(x.cast_signed())
    }

    // The number mod 2^32: its two's complement.
    final fn bits(self) -> u32
        ensures { result ≡ wrapped (number self) }
    {
        self.number().cast_unsigned()
    }

    // Its size, up to 2^31, which is no i32.
    final fn size(self) -> u32
        ensures { result ≡ unsigned_abs (number self) }
    {
        self.number().unsigned_abs()
    }

    final fn negative(self) -> bool
        ensures { result ≡ int_lt (number self) (pos 0) }
    {
        self.number() < 0
    }
}

impl Centred for Offset {
    ghost number = { λ offset. offset.0 };

    fn number(self) -> i32 {
        self.0
    }

    fn of_number(z: i32) -> Offset {
        Offset(z)
    }
}

impl Centred for Age {
    ghost number = { λ age. age.0 };

    fn number(self) -> i32 {
        self.0
    }

    fn of_number(z: i32) -> Age {
        Age(z)
    }
}

impl Count {
    // KIND-4, from the remembered clock to this one: mod 2^32, their difference is in the upper half.
    pub fn goes_back(self, last: Count) -> bool
        ensures { result ≡ goes_back self.0 last.0 }
    {
        0x8000_0000 <= self.wait_of(last)
    }

    // How long a wait has lasted that a send at since began: not centred.
    pub fn wait_of(self, since: Count) -> u32
        ensures { result ≡ wait_of self.0 since.0 }
    {
        self.0.wrapping_sub(since.0)
    }
}

impl Offset {
    // The centred difference of two counts.
    pub fn between(own: Count, peer: Count) -> Offset
        ensures { result.0 ≡ centred (pos own.0 -ℤ pos peer.0) }
    {
        Offset::of_bits(own.0.wrapping_sub(peer.0))
    }

    // KIND-6: of -2^31 it is -2^31 again.
    pub fn negated(self) -> Offset
        ensures { result.0 ≡ centred (neg_ℤ self.0) }
    {
        Offset(self.0.wrapping_neg())
    }

    // Stays: names, and no operators: these wrap, where `+` and `-` of numbers ask that the result fits.
    pub fn plus(self, other: Offset) -> Offset
        ensures { result.0 ≡ centred (self.0 +ℤ other.0) }
    {
        Offset(self.0.wrapping_add(other.0))
    }

    pub fn minus(self, other: Offset) -> Offset
        ensures { result.0 ≡ centred (self.0 -ℤ other.0) }
    {
        Offset(self.0.wrapping_sub(other.0))
    }

    // As a message carries it: of a negative offset, the magnitude is its negation, up to 2^31.
    pub fn sign_magnitude(self) -> SignMagnitude
        ensures { result ≡ sign_magnitude_of self.0 }
    {
        let negative = self.negative();
        SignMagnitude {
            sign: u8::from(negative),
            magnitude: if negative {
                self.negated().bits()
            } else {
                self.bits()
            },
        }
    }

    // From what a message carries: with sign 1, the magnitude negated.
    pub fn read(sign: u8, magnitude: u32) -> Option<Offset>
        ensures { result ≡ offset_read sign magnitude }
    {
        match sign {
            0 if magnitude < 0x8000_0000 => Some(Offset::of_bits(magnitude)),
            1 if (1..=0x8000_0000).contains(&magnitude) => Some(Offset::of_bits(
                magnitude,
            ).negated()),
            _ => None,
        }
    }
}

impl Age {
    // AGE-8: where none is reported.
    pub fn none() -> Age
        ensures { result ≡ no_age }
    {
        Age(0)
    }

    // AGE-1.
    pub fn of(now: Count, stamp: Count, e: u32, min: Offset) -> Age
        ensures { result.0 ≡ age_of now.0 stamp.0 e min.0 }
    {
        let apart = now.0.wrapping_sub(stamp.0);
        let later = apart.wrapping_add(e);
        Age::of_bits(later.wrapping_sub(min.bits()))
    }

    // What T_max makes of it.
    pub fn verdict_of(self, t_max: u32) -> Verdict
        ensures { result ≡ verdict_of self.0 t_max }
    {
        if self.negative() {
            Verdict::Future
        } else if t_max < self.size() {
            Verdict::Late
        } else {
            Verdict::Fresh
        }
    }
}
