// The 16-bit numbers of packets and messages, which run on past 65,535 to 0.
#![tactic(auto)]

ghost use Rattle.std.specs.Prelude.{◌≡◌};
ghost use Rattle.number.specs.Number.{distance_of, next_of};

// LINK-306, PEER-202: from this d on a number lies behind.
pub const BEHIND_FROM: u16 = 32768;

// LINK-D: how far a number is past the last one, over the wrap.
pub fn distance_of(number: u16, last: u16) -> u16
    ensures { result ≡ distance_of number last }
{
    number.wrapping_sub(last)
}

// NUMBER-1: the number that follows.
#[tactic(auto, unfolding(crate::specs::Number::next_of, rules::specs::Modulo::modulo))]
pub fn next_of(number: u16) -> u16
    ensures { result ≡ next_of number }
{
    number.wrapping_add(1)
}
