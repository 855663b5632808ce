// The places of the register file.
ghost use Rattle.std.specs.Prelude.{◌≡◌};
ghost use Rattle.machine.specs.State.{held_in, placed_in};

use crate::File;

// What the place of register a holds. This function and the next alone look up a place by its register's address.
pub fn held(regs: &File, a: u8) -> u8
    ensures { result ≡ held_in regs.now a }
{
    let i = a as usize;
    regs[i]
}

pub fn place(regs: &mut File, a: u8, v: u8)
    ensures { regs.new ≡ placed_in regs.old a v }
{
    regs[a as usize] = v;
}
