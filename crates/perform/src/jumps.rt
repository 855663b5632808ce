// Columns A, B and D of the map: DJNZ, JR and JP.
ghost use Rattle.std.specs.Prelude.{◌≡◌, List, ℕ};
ghost use Rattle.deeds.specs.Pages.{condition_of};
ghost use Rattle.execute.specs.ForCode.{performed, instruction_at};
ghost use Rattle.operands.specs.ForCode.{At};

use deeds::Code;
use execute::doing;
use machine::{Machine, Pins};
use operands::Operands;

// The cycles of all three.
const TAKEN: u32 = 12;

const NOT_TAKEN: u32 = 10;

pub fn djnz(m: &mut Machine, pins: Pins, pc: u16, i: Code, o: Operands) -> u32
    requires { At 10 11 pins m.old pc i o }
    ensures { (image mem : List ℕ) → performed m.new mem result ≡ instruction_at pins image mem m.old pc i }
{
    let here = m.pc;
    let less = registers::read(m, pins, o.dst).wrapping_sub(1);
    registers::write(m, o.dst, less);
    if less != 0 {
        m.pc = word::moved(here, o.src);
        return TAKEN;
    }
    NOT_TAKEN
}

// Whether the condition in the opcode's upper nibble holds.
fn condition(m: &Machine, i: Code) -> bool
    ensures { result ≡ condition_of m.now i }
{
    alu::conditions::holds(i.op / 16, doing::flags(m))
}

// (JR beside JP: a condition, and one assignment that differs; no plainer as one.)
pub fn jr(m: &mut Machine, pins: Pins, pc: u16, i: Code, o: Operands) -> u32
    requires { At 11 12 pins m.old pc i o }
    ensures { (image mem : List ℕ) → performed m.new mem result ≡ instruction_at pins image mem m.old pc i }
{
    if condition(m, i) {
        m.pc = word::moved(m.pc, o.src);
        return TAKEN;
    }
    NOT_TAKEN
}

pub fn jp(m: &mut Machine, pins: Pins, pc: u16, i: Code, o: Operands) -> u32
    requires { At 13 14 pins m.old pc i o }
    ensures { (image mem : List ℕ) → performed m.new mem result ≡ instruction_at pins image mem m.old pc i }
{
    if condition(m, i) {
        m.pc = word::word(i.first, i.second);
        return TAKEN;
    }
    NOT_TAKEN
}
