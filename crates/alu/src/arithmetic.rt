// ADC, ADD, CP, DEC, DECW, INC, INCW, SBC, SUB.
#![tactic(auto, unfolding(crate::specs::FlagByte::packed, crate::specs::Arithmetic::sum_overflow, crate::specs::Arithmetic::difference_overflow, crate::specs::Arithmetic::add_of, crate::specs::Arithmetic::adc_of, crate::specs::Arithmetic::difference_of, crate::specs::Arithmetic::sub_of, crate::specs::Arithmetic::sbc_of, crate::specs::Arithmetic::cp_of, crate::specs::Arithmetic::inc_of, crate::specs::Arithmetic::dec_of, crate::specs::Arithmetic::incw_of, crate::specs::Arithmetic::decw_of))]

ghost use Rattle.std.specs.Prelude.{◌≡◌};
ghost use Rattle.word.specs.Choose.{one_if};
ghost use Rattle.alu.specs.ForCode.{half_carry};
ghost use Rattle.alu.specs.Arithmetic.{sum_overflow, difference_overflow, addition_of, add_of, adc_of, difference_of, subtraction_of, sub_of, sbc_of, cp_of, counted, inc_of, dec_of, incw_of, decw_of};

use crate::{Flags, Outcome};

// V of a sum, by the signs of destination, source and result.
fn sum_overflow(dst: bool, src: bool, r: bool) -> bool
    ensures { one_if result ≡ sum_overflow (one_if dst) (one_if src) (one_if r) }
{
    (dst == src) & (r != dst)
}

// V of a difference, by the signs of destination, source and result.
fn difference_overflow(dst: bool, src: bool, r: bool) -> bool
    ensures { one_if result ≡ difference_overflow (one_if dst) (one_if src) (one_if r) }
{
    (dst != src) & (r == src)
}

// H of a sum or a difference r, by bit 4 of destination, source and result: it is the carry or the borrow that bit 4 took in.
#[tactic(auto, using(crate::proofs::Carries::one_of_half))]
fn half_carry(a: u8, b: u8, r: u8) -> bool
    ensures { one_if result ≡ half_carry a b r }
{
    word::is_set(4, a ^ b ^ r)
}

// a + b + c, with its flags: ADD and ADC.
fn addition(a: u8, b: u8, c: bool) -> Outcome<u8>
    ensures { result ≡ addition_of a b (one_if c) }
{
    let (value, carry) = a.carrying_add(b, c);
    let v = sum_overflow(crate::sign(a), crate::sign(b), crate::sign(value));
    let h = half_carry(a, b, value);
    let flags = Flags::of_result(Flags::CZSVDH, value, carry, v, false, h);
    Outcome { value, flags }
}

pub fn add(a: u8, b: u8) -> Outcome<u8>
    ensures { result ≡ add_of a b }
{
    addition(a, b, false)
}

pub fn adc(a: u8, b: u8, read: u8) -> Outcome<u8>
    ensures { result ≡ adc_of a b read }
{
    addition(a, b, crate::carry(read))
}

// a - b - c, with its flags: SUB and SBC.
// Beside `addition`: all but its last two calls differ, so that one function, with these handed to it, is no plainer.
fn subtraction(a: u8, b: u8, c: bool) -> Outcome<u8>
    ensures { result ≡ subtraction_of a b (one_if c) }
{
    let (value, borrow) = a.borrowing_sub(b, c);
    let v = difference_overflow(crate::sign(a), crate::sign(b), crate::sign(value));
    let h = half_carry(a, b, value);
    let flags = Flags::of_result(Flags::CZSVDH, value, borrow, v, true, h);
    Outcome { value, flags }
}

pub fn sub(a: u8, b: u8) -> Outcome<u8>
    ensures { result ≡ sub_of a b }
{
    subtraction(a, b, false)
}

pub fn sbc(a: u8, b: u8, read: u8) -> Outcome<u8>
    ensures { result ≡ sbc_of a b read }
{
    subtraction(a, b, crate::carry(read))
}

pub fn cp(a: u8, b: u8) -> Flags
    ensures { result ≡ cp_of a b }
{
    let (r, borrow) = a.borrowing_sub(b, false);
    let v = difference_overflow(crate::sign(a), crate::sign(b), crate::sign(r));
    Flags::of_result(Flags::CZSV, r, borrow, v, false, false)
}

// One more or one less, a byte or a word: Z, S and V alone.
fn counted<T>(value: T, z: bool, s: bool, v: bool) -> Outcome<T>
    ensures { result ≡ record { value = value; flags = counted (one_if z) (one_if s) (one_if v) } }
{
    let flags = Flags {
        affected: Flags::ZSV,
        ones: crate::pack(false, z, s, v, false, false),
    };
    Outcome { value, flags }
}

// INC beside DEC, INCW beside DECW: with the method and the value of V handed to it one function would be a call of two closures, no plainer.
// V of one more, one less: only 80 (hexadecimal) is the sum of a positive byte and 1 with the sign changed, only 7F the difference of a
// negative one; of words 8000 and 7FFF.
pub fn inc(a: u8) -> Outcome<u8>
    ensures { result ≡ inc_of a }
{
    let value = a.wrapping_add(1);
    counted(value, value == 0, crate::sign(value), value == 0x80)
}

pub fn dec(a: u8) -> Outcome<u8>
    ensures { result ≡ dec_of a }
{
    let value = a.wrapping_sub(1);
    counted(value, value == 0, crate::sign(value), value == 0x7F)
}

// The sign of a word is that of its high byte.
// Words beside bytes: what differs, 1, the sign and 8000, would be a trait's, which tests/papers refuses here (a rule of the project).
pub fn incw(w: u16) -> Outcome<u16>
    ensures { result ≡ incw_of w }
{
    let value = word::plus(w, 1);
    counted(
        value,
        value == 0,
        crate::sign(word::high_byte(value)),
        value == 0x8000,
    )
}

pub fn decw(w: u16) -> Outcome<u16>
    ensures { result ≡ decw_of w }
{
    let value = word::plus(w, 65535);
    counted(
        value,
        value == 0,
        crate::sign(word::high_byte(value)),
        value == 0x7FFF,
    )
}
