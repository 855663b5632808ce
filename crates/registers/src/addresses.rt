// Operand addresses, and register pairs.
ghost use Rattle.std.specs.Prelude.{◌≡◌, ◌<◌};
ghost use Rattle.machine.specs.Registers.{read_reg};
ghost use Rattle.machine.specs.Addresses.{working_at, register_at, indirect_at, working_indirect_at, indexed_at, even_of, read_pair, write_pair};

use machine::{Machine, Pins, names};

// r: working register x of the group in RP. (x is a nibble, of an opcode or an operand byte: a type of its own would be made of it at each call
// and read back here, no plainer.)
#[tactic(auto, unfolding(machine::specs::Addresses::working_at))]
pub fn working(m: &Machine, x: u8) -> u8
    requires { x < 16 }
    ensures { result ≡ working_at m.now x }
{
    m.held(names::RP) / 16 * 16 + x
}

// R: a register, indirect-register or pair field, where Ex is working register x.
#[tactic(auto, unfolding(machine::specs::Addresses::register_at))]
pub fn register(m: &Machine, b: u8) -> u8
    ensures { result ≡ register_at m.now b }
{
    if b / 16 == 0x0E {
        working(m, b % 16)
    } else {
        b
    }
}

// The address or the index found in register a: what it reads, taken as it is. (`read` by the manual's word for what both
// modes do: no plainer without it.)
fn found(m: &Machine, pins: Pins, a: u8) -> u8
    ensures { result ≡ read_reg pins m.now a }
{
    crate::read(m, pins, a)
}

// IR: the address found in the register of the field.
#[tactic(auto, unfolding(machine::specs::Addresses::indirect_at))]
pub fn indirect(m: &Machine, pins: Pins, b: u8) -> u8
    ensures { result ≡ indirect_at pins m.now b }
{
    found(m, pins, register(m, b))
}

// Ir: the address found in working register x.
#[tactic(auto, unfolding(machine::specs::Addresses::working_indirect_at))]
pub fn working_indirect(m: &Machine, pins: Pins, x: u8) -> u8
    requires { x < 16 }
    ensures { result ≡ working_indirect_at pins m.now x }
{
    found(m, pins, working(m, x))
}

// X: offset plus what working register x reads.
#[tactic(auto, unfolding(machine::specs::Addresses::indexed_at))]
pub fn indexed(m: &Machine, pins: Pins, offset: u8, x: u8) -> u8
    requires { x < 16 }
    ensures { result ≡ indexed_at pins m.now offset x }
{
    offset.wrapping_add(working_indirect(m, pins, x))
}

// A pair's address: the even register.
fn even(a: u8) -> u8
    ensures { (result ≡ even_of a) × (result < 255) }
{
    a / 2 * 2
}

// The word that a pair reads. With a second caller `read_any` stays out of line, and `read`, which looks at general registers first, is
// small enough for the compiler to put it in line wherever it is called. The same holds of `write_any` and `write`.
#[tactic(auto, unfolding(machine::specs::Addresses::read_pair))]
pub fn read_pair(m: &Machine, pins: Pins, a: u8) -> u16
    ensures { result ≡ read_pair pins m.now a }
{
    let high = even(a);
    let hi = crate::read_any(m, pins, high);
    let lo = crate::read_any(m, pins, high + 1);
    word::word(hi, lo)
}

// A word stored to a pair.
#[tactic(auto, unfolding(machine::specs::Addresses::write_pair))]
pub fn write_pair(m: &mut Machine, a: u8, w: u16)
    ensures { m.new ≡ write_pair m.old a w }
{
    let high = even(a);
    crate::write_any(m, high, word::high_byte(w));
    crate::write_any(m, high + 1, word::low_byte(w));
}
