// DA, by the rows of its page.
#![tactic(auto, unfolding(crate::specs::FlagByte::packed, crate::specs::Decimal::adjusted_by, crate::specs::Decimal::after_addition, crate::specs::Decimal::after_subtraction, crate::specs::Decimal::by_rows, crate::specs::Decimal::da_of))]

ghost use Rattle.std.specs.Prelude.{◌≡◌, Some};
ghost use Rattle.word.specs.Choose.{one_if};
ghost use Rattle.alu.specs.Decimal.{adjusted_by, after_addition, after_subtraction, by_rows, da_of};

use crate::{Flags, Outcome};

// What a row makes of the byte v: the number added, the carry after.
fn by(v: u8, add: u8, after: bool) -> Option<Outcome<u8>>
    ensures { result ≡ Some (adjusted_by v add (one_if after)) }
{
    let value = v.wrapping_add(add);
    let flags = Flags::of_result(Flags::CZS, value, after, false, false, false);
    Some(Outcome { value, flags })
}

// The rows for ADD and ADC, by C, bits 4-7, H and bits 0-3.
fn after_addition(v: u8, c: bool, h: bool) -> Option<Outcome<u8>>
    ensures { result ≡ by_rows after_addition v (one_if c) (one_if h) }
{
    match (c, v / 16, h, v % 16) {
        (false, 0x0..=0x9, false, 0x0..=0x9) => by(v, 0x00, false),
        (false, 0x0..=0x8, false, 0xA..=0xF) => by(v, 0x06, false),
        (false, 0x0..=0x9, true, 0x0..=0x3) => by(v, 0x06, false),
        (false, 0xA..=0xF, false, 0x0..=0x9) => by(v, 0x60, true),
        (false, 0x9..=0xF, false, 0xA..=0xF) => by(v, 0x66, true),
        (false, 0xA..=0xF, true, 0x0..=0x3) => by(v, 0x66, true),
        (true, 0x0..=0x2, false, 0x0..=0x9) => by(v, 0x60, true),
        (true, 0x0..=0x2, false, 0xA..=0xF) => by(v, 0x66, true),
        (true, 0x0..=0x3, true, 0x0..=0x3) => by(v, 0x66, true),
        _ => None,
    }
}

// The rows for SUB and SBC: beside the others, as they are the page's second table, and all that differs is its rows (no plainer as one).
fn after_subtraction(v: u8, c: bool, h: bool) -> Option<Outcome<u8>>
    ensures { result ≡ by_rows after_subtraction v (one_if c) (one_if h) }
{
    match (c, v / 16, h, v % 16) {
        (false, 0x0..=0x9, false, 0x0..=0x9) => by(v, 0x00, false),
        (false, 0x0..=0x8, true, 0x6..=0xF) => by(v, 0xFA, false),
        (true, 0x7..=0xF, false, 0x0..=0x9) => by(v, 0xA0, true),
        (true, 0x6..=0xF, true, 0x6..=0xF) => by(v, 0x9A, true),
        _ => None,
    }
}

pub fn da(v: u8, read: u8) -> Option<Outcome<u8>>
    ensures { result ≡ da_of v read }
{
    let c = crate::carry(read);
    let d = word::is_set(3, read);
    let h = word::is_set(2, read);
    if d {
        after_subtraction(v, c, h)
    } else {
        after_addition(v, c, h)
    }
}
