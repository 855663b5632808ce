// RET and IRET, which "read, write SP, then load the destination" (01).
ghost use Rattle.std.specs.Prelude.{◌≡◌};
ghost use Rattle.deeds.specs.Pages.{ret_deed, iret_deed};
ghost use Rattle.execute.specs.Doing.{done_of};

use execute::doing;
use machine::{Machine, Pins, names};
use registers::stack;

#[tactic(auto, unfolding(execute::specs::Doing::done_of, deeds::specs::Pages::ret_deed, execute::specs::Doing::returned, machine::specs::State::with_pc))]
pub fn ret(m: &mut Machine, pins: Pins, mem: &[u8])
    ensures { m.new ≡ (done_of pins m.old (ret_deed pins mem.now m.old)).machine }
{
    let hi = stack::byte_at(m, pins, mem, 0);
    let lo = stack::byte_at(m, pins, mem, 1);
    stack::raise(m, 2);
    m.pc = word::word(hi, lo);
}

#[tactic(auto, unfolding(execute::specs::Doing::done_of, deeds::specs::Pages::iret_deed, execute::specs::Doing::interrupt_returned, machine::specs::State::with_pc))]
pub fn iret(m: &mut Machine, pins: Pins, mem: &[u8])
    ensures { m.new ≡ (done_of pins m.old (iret_deed pins mem.now m.old)).machine }
{
    let flags = stack::byte_at(m, pins, mem, 0);
    let hi = stack::byte_at(m, pins, mem, 1);
    let lo = stack::byte_at(m, pins, mem, 2);
    stack::raise(m, 3);
    m.place(names::FLAGS, flags);
    m.pc = word::word(hi, lo);
    doing::interrupts(m, true);
}
