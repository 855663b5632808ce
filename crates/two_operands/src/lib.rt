// Columns 2 to 7 of the map: an instruction with two operands, by its row.
#![tactic(auto)]

ghost use Rattle.std.specs.Prelude.{◌≡◌};
ghost use Rattle.execute.specs.ForCode.{left_with, instruction_at};
ghost use Rattle.operands.specs.ForCode.{At};

use deeds::Code;
use execute::doing;
use machine::{Machine, Pins};
use numbers::Refusal;
use operands::Operands;

pub fn two(
    m: &mut Machine,
    pins: Pins,
    mem: &mut [u8],
    image: &[u8],
    pc: u16,
    i: Code,
    o: Operands,
) -> Result<u32, Refusal>
    requires { At 2 8 pins m.old pc i o }
    ensures { left_with m.new mem.new result ≡ instruction_at pins image.now mem.old m.old pc i }
{
    let dst = o.dst;
    let src = o.src;
    // read once for all rows, as in `one_operand::one`
    let was = registers::read(m, pins, dst);
    match i.op / 16 {
        0 => {
            doing::store(m, dst, alu::arithmetic::add(was, src));
            Ok(o.cycles)
        }
        1 => {
            doing::store(m, dst, alu::arithmetic::adc(was, src, doing::flags(m)));
            Ok(o.cycles)
        }
        2 => {
            doing::store(m, dst, alu::arithmetic::sub(was, src));
            Ok(o.cycles)
        }
        3 => {
            doing::store(m, dst, alu::arithmetic::sbc(was, src, doing::flags(m)));
            Ok(o.cycles)
        }
        4 => {
            doing::store(m, dst, alu::logical::or(was, src));
            Ok(o.cycles)
        }
        5 => {
            doing::store(m, dst, alu::logical::and(was, src));
            Ok(o.cycles)
        }
        6 => {
            doing::lay(m, alu::logical::tcm(was, src));
            Ok(o.cycles)
        }
        7 => {
            doing::lay(m, alu::logical::tm(was, src));
            Ok(o.cycles)
        }
        10 => {
            doing::lay(m, alu::arithmetic::cp(was, src));
            Ok(o.cycles)
        }
        11 => {
            doing::store(m, dst, alu::logical::xor(was, src));
            Ok(o.cycles)
        }
        14 => {
            if i.op == 0xE2 {
                return doing::refused(m, pc);
            }
            registers::write(m, dst, src);
            Ok(o.cycles)
        }
        _ => singles::singles(m, pins, mem, image, pc, i),
    }
}
