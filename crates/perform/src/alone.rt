// Column F of the map: instructions of one byte, without operands.
ghost use Rattle.std.specs.Prelude.{◌≡◌, List, ℕ};
ghost use Rattle.execute.specs.ForCode.{left_with, instruction_at};
ghost use Rattle.operands.specs.ForCode.{At};

use deeds::Code;
use execute::doing;
use machine::{Machine, Pins, names};
use numbers::Refusal;
use operands::Operands;

pub fn alone(
    m: &mut Machine,
    pins: Pins,
    mem: &[u8],
    pc: u16,
    i: Code,
    o: Operands,
) -> Result<u32, Refusal>
    requires { At 15 16 pins m.old pc i o }
    ensures { (image : List ℕ) → left_with m.new mem.now result ≡ instruction_at pins image mem.now m.old pc i }
{
    match i.op / 16 {
        8 => {
            doing::interrupts(m, false);
            Ok(6)
        }
        9 => {
            doing::enable_interrupts(m);
            Ok(6)
        }
        10 => {
            crate::returns::ret(m, pins, mem);
            Ok(14)
        }
        11 => {
            crate::returns::iret(m, pins, mem);
            Ok(16)
        }
        12 => {
            registers::write(m, names::FLAGS, alu::rcf(doing::flags(m)));
            Ok(6)
        }
        13 => {
            registers::write(m, names::FLAGS, alu::scf(doing::flags(m)));
            Ok(6)
        }
        14 => {
            registers::write(m, names::FLAGS, alu::ccf(doing::flags(m)));
            Ok(6)
        }
        15 => Ok(6),
        _ => doing::refused(m, pc),
    }
}
