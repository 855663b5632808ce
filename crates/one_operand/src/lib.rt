// Columns 0 and 1 of the map: an instruction with one operand, R or IR; and JP IRR and SRP, which stand there too.
#![tactic(auto)]

ghost use Rattle.std.specs.Prelude.{◌≡◌, List, ℕ};
ghost use Rattle.alu.specs.Decimal.{da_of};
ghost use Rattle.machine.specs.Registers.{read_reg};
ghost use Rattle.deeds.specs.Modes.{flags_of};
ghost use Rattle.deeds.specs.Pages.{adjust_deed};
ghost use Rattle.execute.specs.Doing.{done_of};
ghost use Rattle.opcodes.specs.ForCode.{one_mode, push_cost};
ghost use Rattle.execute.specs.ForCode.{performed, instruction_at};
ghost use Rattle.operands.specs.ForCode.{At};

use deeds::Code;
use execute::doing;
use machine::{Bytes, Machine, Pins, names};
use operands::Operands;

// DA's outcome, where there is one, stored.
fn da(m: &mut Machine, pins: Pins, a: u8)
    ensures { m.new ≡ (done_of pins m.old (adjust_deed a (da_of (read_reg pins m.old a) (flags_of m.old)))).machine }
{
    let was = registers::read(m, pins, a);
    if let Some(o) = alu::decimal::da(was, doing::flags(m)) {
        doing::store(m, a, o);
    }
}

// PUSH, by the kind of stack before anything is written.
fn push_cycles(lo: u8, internal: bool) -> u32
    ensures { result ≡ push_cost (one_mode lo) internal }
{
    match (lo, internal) {
        (0, true) => 10,
        (0, false) => 12,
        (_, true) => 12,
        (_, false) => 14,
    }
}

pub fn one(m: &mut Machine, pins: Pins, mem: &mut [u8], pc: u16, i: Code, o: Operands) -> u32
    requires { At 0 2 pins m.old pc i o }
    ensures { (image : List ℕ) → performed m.new mem.new result ≡ instruction_at pins image mem.old m.old pc i }
{
    let row = i.op / 16;
    let lo = i.op % 16;
    let a = o.dst;
    // read here for all that want it: an arm that doesn't loses little, and the whole stays small enough to be put into the run's loop
    let was = registers::read(m, pins, a);
    match row {
        0 => {
            doing::store(m, a, alu::arithmetic::dec(was));
            6
        }
        1 => {
            doing::store(m, a, alu::rotate::rlc(was, doing::flags(m)));
            6
        }
        2 => {
            doing::store(m, a, alu::arithmetic::inc(was));
            6
        }
        3 => {
            if lo == 0 {
                let to = registers::addresses::read_pair(m, pins, a);
                m.pc = to;
                return 8;
            }
            registers::write(m, names::RP, i.first);
            6
        }
        4 => {
            da(m, pins, a);
            8
        }
        5 => {
            let v = registers::stack::byte_at(m, pins, mem, 0);
            registers::stack::raise(m, 1);
            registers::write(m, a, v);
            10
        }
        6 => {
            doing::store(m, a, alu::logical::com(was));
            6
        }
        7 => {
            let cycles = push_cycles(lo, registers::stack::is_internal(m));
            registers::stack::push(m, mem, Bytes::One(was));
            cycles
        }
        8 => {
            let pair = registers::addresses::read_pair(m, pins, a);
            doing::store_word(m, a, alu::arithmetic::decw(pair));
            10
        }
        9 => {
            doing::store(m, a, alu::rotate::rl(was));
            6
        }
        10 => {
            let pair = registers::addresses::read_pair(m, pins, a);
            doing::store_word(m, a, alu::arithmetic::incw(pair));
            10
        }
        11 => {
            registers::write(m, a, 0);
            6
        }
        12 => {
            doing::store(m, a, alu::rotate::rrc(was, doing::flags(m)));
            6
        }
        13 => {
            doing::store(m, a, alu::rotate::sra(was));
            6
        }
        14 => {
            doing::store(m, a, alu::rotate::rr(was));
            6
        }
        _ => {
            doing::store(m, a, alu::rotate::swap(was));
            8
        }
    }
}
