// An instruction at once: its column gives the operands, its row the operation.
#![tactic(auto)]

mod alone;
mod jumps;
mod returns;

ghost use Rattle.std.specs.Prelude.{◌≡◌};
ghost use Rattle.execute.specs.Execute.{execute_of};
ghost use Rattle.execute.specs.ForCode.{left_with, performed_by, instruction_at};

use deeds::Code;
use execute::doing;
use machine::{Machine, Pins};
use numbers::Refusal;

// The instruction i, which stands at pc. (Pins, data memory and image go side by side: lent by one struct, each clause would name them
// through it, and be no plainer.)
pub fn perform(
    m: &mut Machine,
    pins: Pins,
    mem: &mut [u8],
    image: &[u8],
    pc: u16,
    i: Code,
) -> Result<u32, Refusal>
    ensures { left_with m.new mem.new result ≡ instruction_at pins image.now mem.old m.old pc i }
{
    let o = operands::columns::operands(m, pins, pc, i);
    match i.op % 16 {
        0 | 1 => Ok(one_operand::one(m, pins, mem, pc, i, o)),
        2 | 3 | 4 | 5 | 6 | 7 => two_operands::two(m, pins, mem, image, pc, i, o),
        // three arms, as three columns load: one arm's proof would tell them apart again, and be no plainer
        8 => {
            registers::write(m, o.dst, o.src);
            Ok(6)
        }
        9 => {
            registers::write(m, o.dst, o.src);
            Ok(6)
        }
        10 => Ok(jumps::djnz(m, pins, pc, i, o)),
        11 => Ok(jumps::jr(m, pins, pc, i, o)),
        12 => {
            registers::write(m, o.dst, o.src);
            Ok(6)
        }
        13 => Ok(jumps::jp(m, pins, pc, i, o)),
        14 => {
            let was = registers::read(m, pins, o.dst);
            doing::store(m, o.dst, alu::arithmetic::inc(was));
            Ok(6)
        }
        _ => alone::alone(m, pins, mem, pc, i, o),
    }
}

// The instruction at the program counter.
#[tactic(auto, using(crate::proofs::Theorems::here_is))]
pub fn execute_here(
    m: &mut Machine,
    pins: Pins,
    mem: &mut [u8],
    image: &[u8],
) -> Result<u32, Refusal>
    ensures { left_with m.new mem.new result ≡ performed_by m.old mem.old (execute_of pins image.now mem.old m.old) }
{
    let pc = m.pc;
    perform(m, pins, mem, image, pc, execute::fetch(image, pc))
}
