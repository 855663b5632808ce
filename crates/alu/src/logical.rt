// AND, COM, OR, TCM, TM, XOR.
#![tactic(auto, unfolding(crate::specs::FlagByte::packed, crate::specs::Logical::logic_flags, crate::specs::Logical::and_of, crate::specs::Logical::or_of, crate::specs::Logical::xor_of, crate::specs::Logical::com_of, crate::specs::Logical::tm_of, crate::specs::Logical::tcm_of))]

ghost use Rattle.std.specs.Prelude.{◌≡◌};
ghost use Rattle.alu.specs.Logical.{logic, logic_flags, and_of, or_of, xor_of, com_of, tm_of, tcm_of};

use crate::{Flags, Outcome};

// Z and S by the result, V reset.
fn logic_flags(r: u8) -> Flags
    ensures { result ≡ logic_flags r }
{
    Flags::of_result(Flags::ZSV, r, false, false, false, false)
}

fn logic(value: u8) -> Outcome<u8>
    ensures { result ≡ logic value }
{
    let flags = logic_flags(value);
    Outcome { value, flags }
}

pub fn and(a: u8, b: u8) -> Outcome<u8>
    ensures { result ≡ and_of a b }
{
    logic(a & b)
}

pub fn or(a: u8, b: u8) -> Outcome<u8>
    ensures { result ≡ or_of a b }
{
    logic(a | b)
}

pub fn xor(a: u8, b: u8) -> Outcome<u8>
    ensures { result ≡ xor_of a b }
{
    logic(a ^ b)
}

pub fn com(a: u8) -> Outcome<u8>
    ensures { result ≡ com_of a }
{
    logic(!a)
}

pub fn tm(a: u8, b: u8) -> Flags
    ensures { result ≡ tm_of a b }
{
    logic_flags(a & b)
}

pub fn tcm(a: u8, b: u8) -> Flags
    ensures { result ≡ tcm_of a b }
{
    logic_flags(!a & b)
}
