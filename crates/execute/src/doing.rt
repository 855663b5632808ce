// What several instructions do alike: results stored and flags laid, in this order; calls; bit 7 of IMR; a refusal.
ghost use Rattle.std.specs.Prelude.{◌≡◌, Err};
ghost use Rattle.numbers.specs.declared.Refusal.TheVariants.{Opcode};
ghost use Rattle.machine.specs.State.{with_pc};
ghost use Rattle.machine.specs.ForCode.{left, stacked};
ghost use Rattle.deeds.specs.Modes.{flags_of};
ghost use Rattle.execute.specs.Doing.{flagged, stored_at, word_stored_at, counted_up, pair_counted_up, interrupts_to, interrupts_enabled, called};

use alu::{Flags, Outcome};
use machine::{Bytes, Machine, Pins, names};
use numbers::Refusal;

// FLAGS, as they stand.
pub fn flags(m: &Machine) -> u8
    ensures { result ≡ flags_of m.now }
{
    m.held(names::FLAGS)
}

// The affected flags, on the FLAGS byte that is in place by now.
#[tactic(auto, unfolding(crate::specs::Doing::flagged))]
pub fn lay(m: &mut Machine, e: Flags)
    ensures { m.new ≡ flagged m.old e }
{
    m.place(names::FLAGS, alu::lay(flags(m), e));
}

// A byte stored, and then the flags.
#[tactic(auto, unfolding(crate::specs::Doing::stored_at))]
pub fn store(m: &mut Machine, dst: u8, o: Outcome<u8>)
    ensures { m.new ≡ stored_at m.old dst o }
{
    registers::write(m, dst, o.value);
    lay(m, o.flags);
}

// A word stored, and then the flags. (Two calls, as `store` is: a trait over the two widths would be longer than both.)
#[tactic(auto, unfolding(crate::specs::Doing::word_stored_at))]
pub fn store_word(m: &mut Machine, dst: u8, w: Outcome<u16>)
    ensures { m.new ≡ word_stored_at m.old dst w }
{
    registers::addresses::write_pair(m, dst, w.value);
    lay(m, w.flags);
}

// 1 added to what the register at r, and then to what the pair at rr reads by now.
#[tactic(auto, unfolding(crate::specs::Doing::pair_counted_up, crate::specs::Doing::counted_up))]
pub fn count_up(m: &mut Machine, pins: Pins, r: u8, rr: u8)
    ensures { m.new ≡ pair_counted_up pins (counted_up pins m.old r) rr }
{
    let v = registers::read(m, pins, r);
    registers::write(m, r, v.wrapping_add(1));
    let w = registers::addresses::read_pair(m, pins, rr);
    registers::addresses::write_pair(m, rr, word::plus(w, 1));
}

// CALL: the address of the next instruction pushed.
#[tactic(auto, unfolding(crate::specs::Doing::called, machine::specs::State::with_pc))]
pub fn call(m: &mut Machine, mem: &mut [u8], to: u16)
    ensures { left m.new mem.new ≡ stacked m.old.kind mem.old (called m.old to) }
{
    let back = Bytes::Two(word::high_byte(m.pc), word::low_byte(m.pc));
    registers::stack::push(m, mem, back);
    m.pc = to;
}

// Bit 7 of IMR.
#[tactic(auto, unfolding(crate::specs::Doing::interrupts_to))]
pub fn interrupts(m: &mut Machine, on: bool)
    ensures { m.new ≡ interrupts_to m.old on }
{
    let imr = m.held(names::IMR);
    m.place(names::IMR, imr % 128 + word::bits_if(on, 0x80));
}

// EI: bit 7 of IMR, and IRQ is released.
#[tactic(auto, unfolding(crate::specs::Doing::interrupts_enabled, machine::specs::State::with_released))]
pub fn enable_interrupts(m: &mut Machine)
    ensures { m.new ≡ interrupts_enabled m.old }
{
    interrupts(m, true);
    m.released = true;
}

// Refused: the machine is back at pc, and nothing else was changed.
#[tactic(auto, unfolding(machine::specs::State::with_pc))]
pub fn refused(m: &mut Machine, pc: u16) -> Result<u32, Refusal>
    ensures value { result ≡ Err Opcode }
    ensures back { m.new ≡ with_pc m.old pc }
{
    m.pc = pc;
    Err(Refusal::Opcode)
}
