// The instructions of columns 2 to 7 whose rows don't go by the column: LDE, LDEI, LDC, LDCI, CALL, and LD of rows C, D and F.
#![tactic(auto)]

ghost use Rattle.std.specs.Prelude.{◌≡◌};
ghost use Rattle.machine.specs.Registers.{write_reg};
ghost use Rattle.execute.specs.Doing.{counted_up, pair_counted_up};
ghost use Rattle.execute.specs.ForCode.{left_with, instruction_at};
ghost use Rattle.singles.specs.ForCode.{Single};

use deeds::Code;
use execute::doing;
use machine::{Machine, Pins};
use numbers::Refusal;
use registers::addresses;

// "LDCI and LDEI store, then add one" to the register and to the pair.
fn block(m: &mut Machine, pins: Pins, dst: u8, v: u8, r: u8, rr: u8)
    ensures { m.new ≡ pair_counted_up pins (counted_up pins (write_reg m.old dst v) r) rr }
{
    registers::write(m, dst, v);
    doing::count_up(m, pins, r, rr);
}

// (LDE and LDC, and their like, stand apart though they read alike: with the memory handed over as a closure each arm is longer, no plainer.)
pub fn singles(
    m: &mut Machine,
    pins: Pins,
    mem: &mut [u8],
    image: &[u8],
    pc: u16,
    i: Code,
) -> Result<u32, Refusal>
    requires { Single m.old pc i }
    ensures { left_with m.new mem.new result ≡ instruction_at pins image.now mem.old m.old pc i }
{
    let r = addresses::working(m, i.first / 16);
    let x = addresses::working(m, i.first % 16);
    let pointed = addresses::read_pair(m, pins, x);
    match i.op {
        0x82 => {
            let v = machine::memory::load(m.kind, mem, pointed);
            registers::write(m, r, v);
            Ok(12)
        }
        0x83 => {
            let to = registers::read(m, pins, r);
            let v = machine::memory::load(m.kind, mem, pointed);
            block(m, pins, to, v, r, x);
            Ok(18)
        }
        0x92 => {
            let v = registers::read(m, pins, r);
            machine::memory::store_byte(m.kind, mem, pointed, v);
            Ok(12)
        }
        0x93 => {
            let v = registers::read(m, pins, registers::read(m, pins, r));
            machine::memory::store_byte(m.kind, mem, pointed, v);
            doing::count_up(m, pins, r, x);
            Ok(18)
        }
        0xC2 => {
            let v = machine::memory::program(image, pointed);
            registers::write(m, r, v);
            Ok(12)
        }
        0xC3 => {
            let to = registers::read(m, pins, r);
            let v = machine::memory::program(image, pointed);
            block(m, pins, to, v, r, x);
            Ok(18)
        }
        0xC7 => {
            let a = addresses::indexed(m, pins, i.second, i.first % 16);
            let v = registers::read(m, pins, a);
            registers::write(m, r, v);
            Ok(10)
        }
        0xD2 => Ok(12),
        0xD3 => {
            doing::count_up(m, pins, r, x);
            Ok(18)
        }
        0xD4 => {
            m.pc = word::plus(pc, 2);
            let to = addresses::read_pair(m, pins, addresses::register(m, i.first));
            doing::call(m, mem, to);
            Ok(20)
        }
        0xD6 => {
            doing::call(m, mem, word::word(i.first, i.second));
            Ok(20)
        }
        0xD7 => {
            let a = addresses::indexed(m, pins, i.second, i.first % 16);
            let v = registers::read(m, pins, r);
            registers::write(m, a, v);
            Ok(10)
        }
        0xF3 => {
            let v = registers::read(m, pins, x);
            registers::write(m, registers::read(m, pins, r), v);
            Ok(6)
        }
        0xF5 => {
            let v = registers::read(m, pins, addresses::register(m, i.first));
            let to = addresses::indirect(m, pins, i.second);
            registers::write(m, to, v);
            Ok(10)
        }
        _ => doing::refused(m, pc),
    }
}
