// Bytes and words, with no chip in them. Where a library's method does the same, the name of 01 and of the definitions stands over it:
// docs/PROMISES.md names each (what may not change).
#![tactic(auto)]

ghost use Rattle.std.specs.Prelude.{◌≡◌, ◌<◌, ◌≤◌};
ghost use Rattle.word.specs.Choose.{bits_if};
ghost use Rattle.word.specs.Fields.{bit_of, is_set, upper, lower, word_of, high_byte, low_byte};
ghost use Rattle.word.specs.Words.{plus, disp_of, moved_by};

// Bit n of v, as 0 or 1.
// n stays a number, and bits stay numbers here: docs/PROMISES.md names `bit(n, v)` and `is_set(n, v)` (what may not change).
pub fn bit(n: u8, v: u8) -> u8
    requires { n < 8 }
    ensures { result ≡ bit_of n v }
{
    (v >> n) % 2
}

// Whether bit n of v is set.
pub fn is_set(n: u8, v: u8) -> bool
    requires { n < 8 }
    ensures { result ≡ is_set n v }
{
    bit(n, v) == 1
}

// These bits where the test holds, else none.
pub fn bits_if(test: bool, bits: u8) -> u8
    ensures is { result ≡ bits_if test bits }
    ensures within { result ≤ bits }
{
    if test { bits } else { 0 }
}

// The upper four bits of v.
pub fn upper(v: u8) -> u8
    ensures { result ≡ upper v }
{
    v / 16
}

// The lower four bits of v.
pub fn lower(v: u8) -> u8
    ensures { result ≡ lower v }
{
    v % 16
}

// The word of two bytes, high byte first.
pub fn word(hi: u8, lo: u8) -> u16
    ensures { result ≡ word_of hi lo }
{
    u16::from_be_bytes([hi, lo])
}

pub fn high_byte(w: u16) -> u8
    ensures { result ≡ high_byte w }
{
    w.to_be_bytes()[0]
}

pub fn low_byte(w: u16) -> u8
    ensures { result ≡ low_byte w }
{
    w.to_be_bytes()[1]
}

// w + n modulo 65,536: the bytes fetched, a word's increment, an external stack pointer's move. A move down by n is one
// up by 65,536 - n.
pub fn plus(w: u16, n: u16) -> u16
    ensures { result ≡ plus w n }
{
    w.wrapping_add(n)
}

// An operand byte as a signed displacement, -128 to 127.
pub fn displacement(b: u8) -> i16
    ensures { result ≡ disp_of b }
{
    i16::from(b.cast_signed())
}

// w moved by an operand byte's displacement.
#[tactic(auto, using(crate::proofs::Bytes::moves))]
pub fn moved(w: u16, b: u8) -> u16
    ensures { result ≡ moved_by w (disp_of b) }
{
    plus(w, displacement(b).cast_unsigned())
}
