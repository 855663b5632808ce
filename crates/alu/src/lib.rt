// Arithmetic, logic, rotates, DA and the condition codes, on bytes and the FLAGS byte. An operation answers its result and
// what becomes of the flags; `lay` puts the flags into the FLAGS byte that is in place once the destination is stored. The
// flags that an operation reads are a parameter, `read`: the FLAGS byte from before anything was written. The two bytes
// differ only where the destination is FLAGS itself.
#![tactic(auto, unfolding(crate::specs::FlagByte::packed, crate::specs::FlagByte::laid, crate::specs::FlagByte::rcf_of, crate::specs::FlagByte::scf_of, crate::specs::FlagByte::ccf_of))]

ghost use Rattle.std.specs.Prelude.{◌≡◌};
ghost use Rattle.word.specs.Choose.{one_if};
ghost use Rattle.alu.specs.FlagByte.{packed, laid, flag_c, is_zero, sign8, carry_to, rcf_of, scf_of, ccf_of};

pub mod arithmetic;
pub mod conditions;
pub mod decimal;
pub mod logical;
pub mod rotate;

// Which bits of FLAGS an operation affects, and which of these it sets.
#[derive(Clone, Copy)]
pub struct Flags {
    pub affected: u8,
    pub ones: u8,
}

// The bits of FLAGS that an operation affects, by the flags' names.
impl Flags {
    pub const C: u8 = 0x80;

    pub const ZS: u8 = 0x60;

    pub const CZS: u8 = 0xE0;

    pub const ZSV: u8 = 0x70;

    pub const CZSV: u8 = 0xF0;

    pub const CZSVDH: u8 = 0xFC;

    // Z and S by the result r, and the others as given.
    fn of_result(affected: u8, r: u8, c: bool, v: bool, d: bool, h: bool) -> Flags
        ensures { result ≡ record { affected = affected; ones = packed (one_if c) (is_zero r) (sign8 r) (one_if v) (one_if d) (one_if h) } }
    {
        let ones = pack(c, r == 0, sign(r), v, d, h);
        Flags { affected, ones }
    }
}

// A byte or a word to store, and the flags.
#[derive(Clone, Copy)]
pub struct Outcome<T> {
    pub value: T,
    pub flags: Flags,
}

// The affected bits laid on the FLAGS byte f.
pub fn lay(f: u8, e: Flags) -> u8
    ensures { result ≡ laid f e }
{
    (f & !e.affected) | e.ones
}

// Six flags in their places.
fn pack(c: bool, z: bool, s: bool, v: bool, d: bool, h: bool) -> u8
    ensures { result ≡ packed (one_if c) (one_if z) (one_if s) (one_if v) (one_if d) (one_if h) }
{
    u8::from(c) * 128
        + u8::from(z) * 64
        + u8::from(s) * 32
        + u8::from(v) * 16
        + u8::from(d) * 8
        + u8::from(h) * 4
}

// C of the FLAGS byte f.
fn carry(f: u8) -> bool
    ensures { one_if result ≡ flag_c f }
{
    word::is_set(7, f)
}

// The sign of a byte: its most significant bit.
fn sign(a: u8) -> bool
    ensures { one_if result ≡ sign8 a }
{
    a >= 0x80
}

// C alone.
fn carry_to(c: bool) -> Flags
    ensures { result ≡ carry_to (one_if c) }
{
    Flags {
        affected: Flags::C,
        ones: pack(c, false, false, false, false, false),
    }
}

pub fn rcf(f: u8) -> u8
    ensures { result ≡ rcf_of f }
{
    lay(f, carry_to(false))
}

pub fn scf(f: u8) -> u8
    ensures { result ≡ scf_of f }
{
    lay(f, carry_to(true))
}

pub fn ccf(f: u8) -> u8
    ensures { result ≡ ccf_of f }
{
    lay(f, carry_to(!carry(f)))
}
