// One instruction: its bytes, and (`doing`) what several of them do alike. The rooms `operands`, `one_operand`, `two_operands`, `singles` and
// `perform` do what is theirs of the opcode map.
#![tactic(auto)]

pub mod doing;

ghost use Rattle.std.specs.Prelude.{◌≡◌};
ghost use Rattle.execute.specs.Execute.{code_at};

use deeds::Code;

// The bytes of the instruction at pc.
#[tactic(auto, unfolding(crate::specs::Execute::code_at))]
pub fn fetch(image: &[u8], pc: u16) -> Code
    ensures { result ≡ code_at image.now pc }
{
    let b = machine::memory::program_three(image, pc);
    Code {
        op: b.first,
        first: b.second,
        second: b.third,
    }
}
