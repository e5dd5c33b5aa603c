// The loops that bench/ times, for C to call: the checks of many headers, a byte at a time as `packet` has it, or bit by bit as it had it.
#![tactic(auto)]

ghost use Rattle.std.specs.Prelude.{◌≡◌, ◌+◌, ◌≤◌, length};
ghost use Rattle.packet.specs.Sizes.{checked_bytes};
ghost use Rattle.packet.specs.Check.{bit_in, byte_in};
ghost use Rattle.packet.specs.Packet.{check_at};
ghost use Rattle.bench_loops.specs.Digest.{fold_of, digest_of_checks};

// PKT-CHECK: the register at first; of x^16+x^12+x^5+1 the terms that stay in it, the highest term lowest.
const ALL_ONES: u16 = 0xFFFF;

const POLYNOMIAL: u16 = 0x8408;

const BITS: usize = 8;

// PKT-CHECK: one bit goes into the register.
fn bit_in(register: u16, bit: u8) -> u16
    ensures { result ≡ bit_in register bit }
{
    if register % 2 == u16::from(bit % 2) {
        register >> 1
    } else {
        (register >> 1) ^ POLYNOMIAL
    }
}

// PKT-CHECK: the bits of a byte go in, the lowest first.
fn byte_by_bits(register: u16, byte: u8) -> u16
    ensures { result ≡ byte_in register byte }
{
    let mut q = register;
    let mut left = byte;
    for _ in 0..BITS {
        q = bit_in(q, left % 2);
        left /= 2;
    }
    q
}

// PKT-CHECK: the check of the bytes from `at` on that it covers, bit by bit.
// Stays: a second loop beside `check_at`, and none that takes its step: bench/ times each as it stands.
fn check_by_bits(s: &[u8], at: usize) -> u16
    requires { at + checked_bytes ≤ length s.now }
    ensures { result ≡ check_at s.now at }
{
    s[at..at + packet::CHECKED_BYTES]
        .iter()
        .fold(ALL_ONES, |register, byte| byte_by_bits(register, *byte))
}

// PKT-CHECK: the same check either way.
fn check_either_way(s: &[u8], at: usize, by_bits: bool) -> u64
    requires { at + checked_bytes ≤ length s.now }
    ensures { result ≡ check_at s.now at }
{
    if by_bits {
        u64::from(check_by_bits(s, at))
    } else {
        u64::from(packet::check_at(s, at))
    }
}

// PKT-CHECK: a check is folded into a number. What came before is tripled, so that the order counts and the compiler takes one header after
// the other, as a link brings them.
fn folded(digest: u64, check: u64) -> u64
    ensures { result ≡ fold_of digest check }
{
    digest.wrapping_mul(3).wrapping_add(check)
}

// PKT-CHECK: the checks of the headers that stand one behind another in any bytes, folded into one number.
#[unsafe(no_mangle)]
pub extern "C" fn digest_of_checks(s: &[u8], by_bits: bool) -> u64
    ensures { result ≡ digest_of_checks s.now }
{
    let headers = s.len() / packet::PACKET_HEADER_SIZE;
    let mut digest: u64 = 0;
    for k in 0..headers {
        digest = folded(
            digest,
            check_either_way(s, k * packet::PACKET_HEADER_SIZE, by_bits),
        );
    }
    digest
}
