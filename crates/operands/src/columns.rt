// The columns of the map: the operands, and where the next instruction is.
ghost use Rattle.std.specs.Prelude.{◌≡◌};
ghost use Rattle.word.specs.Fields.{lower};
ghost use Rattle.word.specs.Words.{plus};
ghost use Rattle.machine.specs.State.{with_pc};
ghost use Rattle.execute.specs.ForCode.{column_length};
ghost use Rattle.operands.specs.ForCode.{column_at};

use crate::Operands;
use deeds::Code;
use machine::{Machine, Pins};

// The machine n bytes further than pc.
#[tactic(auto, unfolding(machine::specs::State::with_pc))]
fn at(m: &mut Machine, pc: u16, n: u16)
    ensures { m.new ≡ with_pc m.old (plus pc n) }
{
    m.pc = word::plus(pc, n);
}

// What the opcode's column says; the machine is at the next instruction then.
pub fn operands(m: &mut Machine, pins: Pins, pc: u16, i: Code) -> Operands
    ensures value { result ≡ column_at pins m.new i }
    ensures next { m.new ≡ with_pc m.old (plus pc (column_length (lower i.op))) }
{
    let lo = i.op % 16;
    match lo {
        0 => {
            at(m, pc, 2);
            let dst = registers::addresses::register(m, i.first);
            Operands {
                dst,
                src: 0,
                cycles: 6,
            }
        }
        1 => {
            at(m, pc, 2);
            let dst = registers::addresses::indirect(m, pins, i.first);
            Operands {
                dst,
                src: 0,
                cycles: 6,
            }
        }
        2 => {
            at(m, pc, 2);
            let dst = registers::addresses::working(m, i.first / 16);
            let a = registers::addresses::working(m, i.first % 16);
            let src = registers::read(m, pins, a);
            Operands {
                dst,
                src,
                cycles: 6,
            }
        }
        3 => {
            at(m, pc, 2);
            let dst = registers::addresses::working(m, i.first / 16);
            let a = registers::addresses::working_indirect(m, pins, i.first % 16);
            let src = registers::read(m, pins, a);
            Operands {
                dst,
                src,
                cycles: 6,
            }
        }
        4 => {
            at(m, pc, 3);
            let dst = registers::addresses::register(m, i.second);
            let a = registers::addresses::register(m, i.first);
            let src = registers::read(m, pins, a);
            Operands {
                dst,
                src,
                cycles: 10,
            }
        }
        5 => {
            at(m, pc, 3);
            let dst = registers::addresses::register(m, i.second);
            let a = registers::addresses::indirect(m, pins, i.first);
            let src = registers::read(m, pins, a);
            Operands {
                dst,
                src,
                cycles: 10,
            }
        }
        6 => {
            at(m, pc, 3);
            let dst = registers::addresses::register(m, i.first);
            Operands {
                dst,
                src: i.second,
                cycles: 10,
            }
        }
        7 => {
            at(m, pc, 3);
            let dst = registers::addresses::indirect(m, pins, i.first);
            Operands {
                dst,
                src: i.second,
                cycles: 10,
            }
        }
        8 => {
            at(m, pc, 2);
            let dst = registers::addresses::working(m, i.op / 16);
            let a = registers::addresses::register(m, i.first);
            let src = registers::read(m, pins, a);
            Operands {
                dst,
                src,
                cycles: 6,
            }
        }
        9 => {
            at(m, pc, 2);
            let dst = registers::addresses::register(m, i.first);
            let a = registers::addresses::working(m, i.op / 16);
            let src = registers::read(m, pins, a);
            Operands {
                dst,
                src,
                cycles: 6,
            }
        }
        10 => {
            at(m, pc, 2);
            let dst = registers::addresses::working(m, i.op / 16);
            Operands {
                dst,
                src: i.first,
                cycles: 12,
            }
        }
        11 => {
            at(m, pc, 2);
            Operands {
                dst: 0,
                src: i.first,
                cycles: 12,
            }
        }
        12 => {
            at(m, pc, 2);
            let dst = registers::addresses::working(m, i.op / 16);
            Operands {
                dst,
                src: i.first,
                cycles: 6,
            }
        }
        13 => {
            at(m, pc, 3);
            Operands {
                dst: 0,
                src: 0,
                cycles: 12,
            }
        }
        14 => {
            at(m, pc, 1);
            let dst = registers::addresses::working(m, i.op / 16);
            Operands {
                dst,
                src: 0,
                cycles: 6,
            }
        }
        _ => {
            at(m, pc, 1);
            Operands {
                dst: 0,
                src: 0,
                cycles: 6,
            }
        }
    }
}
