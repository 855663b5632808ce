// RL, RLC, RR, RRC, SRA, SWAP.
#![tactic(auto, unfolding(crate::specs::FlagByte::packed, crate::specs::Rotate::rotate_flags, crate::specs::Rotate::rl_of, crate::specs::Rotate::rlc_of, crate::specs::Rotate::rr_of, crate::specs::Rotate::rrc_of, crate::specs::Rotate::sra_of, crate::specs::Rotate::swap_of))]

ghost use Rattle.std.specs.Prelude.{◌≡◌, ◌+◌, ◌*◌, ◌/◌, ◌%◌};
ghost use Rattle.word.specs.Choose.{one_if};
ghost use Rattle.alu.specs.Rotate.{rotated, rl_of, rlc_of, rr_of, rrc_of, sra_of, swap_of};

use crate::{Flags, Outcome};

// The rotation of a to r, with a bit rotated out. V: whether the sign changed.
fn rotated(out: bool, a: u8, r: u8) -> Outcome<u8>
    ensures { result ≡ rotated (one_if out) a r }
{
    let v = crate::sign(a) != crate::sign(r);
    let flags = Flags::of_result(Flags::CZSV, r, out, v, false, false);
    Outcome { value: r, flags }
}

// Left one bit, with this one rotated in. (`rotate_left` has no bit to rotate in, and would do for RL alone: no plainer.)
fn left(a: u8, low: bool) -> Outcome<u8>
    ensures { result ≡ rotated (a / 128) a (a % 128 * 2 + one_if low) }
{
    rotated(crate::sign(a), a, a % 128 * 2 + u8::from(low))
}

// Right one bit, with this one rotated in.
fn right(a: u8, high: bool) -> Outcome<u8>
    ensures { result ≡ rotated (a % 2) a (a / 2 + one_if high * 128) }
{
    rotated(word::is_set(0, a), a, a / 2 + u8::from(high) * 128)
}

pub fn rl(a: u8) -> Outcome<u8>
    ensures { result ≡ rl_of a }
{
    left(a, crate::sign(a))
}

pub fn rlc(a: u8, read: u8) -> Outcome<u8>
    ensures { result ≡ rlc_of a read }
{
    left(a, crate::carry(read))
}

pub fn rr(a: u8) -> Outcome<u8>
    ensures { result ≡ rr_of a }
{
    right(a, word::is_set(0, a))
}

pub fn rrc(a: u8, read: u8) -> Outcome<u8>
    ensures { result ≡ rrc_of a read }
{
    right(a, crate::carry(read))
}

pub fn sra(a: u8) -> Outcome<u8>
    ensures { result ≡ sra_of a }
{
    let value = a / 2 + a / 128 * 128;
    let out = word::is_set(0, a);
    let flags = Flags::of_result(Flags::CZSV, value, out, false, false, false);
    Outcome { value, flags }
}

#[tactic(auto, using(crate::proofs::Carries::nibbles_swapped), unfolding(crate::specs::FlagByte::packed, crate::specs::Rotate::rotate_flags, crate::specs::Rotate::swap_of))]
pub fn swap(a: u8) -> Outcome<u8>
    ensures { result ≡ swap_of a }
{
    let value = a.rotate_left(4);
    let flags = Flags::of_result(Flags::ZS, value, false, false, false, false);
    Outcome { value, flags }
}
