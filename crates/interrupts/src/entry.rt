// The grant of a request.
ghost use Rattle.std.specs.Prelude.{◌≡◌, ◌<◌};
ghost use Rattle.machine.specs.ForCode.{left, stacked};
ghost use Rattle.interrupts.specs.Entry.{cleared, vector_of, entered_of};

use execute::doing;
use machine::{Bytes, Machine, names};

// IRQ with request n cleared. (A request is its bit's number in IRQ and its vector's place: an enum would be turned into it each time.)
#[tactic(auto, using(word::proofs::Computed::agree), unfolding(crate::specs::Entry::cleared))]
fn cleared(n: u8, irq: u8) -> u8
    requires { n < 6 }
    ensures { result ≡ cleared n irq }
{
    irq & !(1 << n)
}

// The address that request n's vector holds.
#[tactic(auto, unfolding(crate::specs::Entry::vector_of))]
fn vector(image: &[u8], n: u8) -> u16
    requires { n < 6 }
    ensures { result ≡ vector_of image.now n }
{
    let at = 2 * u16::from(n);
    let hi = machine::memory::program(image, at);
    let lo = machine::memory::program(image, at + 1);
    word::word(hi, lo)
}

// Request n entered: PC and FLAGS are pushed, then the request and IMR's bit 7 are cleared, also in bytes just pushed there.
pub fn enter(m: &mut Machine, mem: &mut [u8], image: &[u8], n: u8)
    requires { n < 6 }
    ensures { left m.new mem.new ≡ stacked m.old.kind mem.old (entered_of image.now m.old n) }
{
    let flags = doing::flags(m);
    let pushed = Bytes::Three(flags, word::high_byte(m.pc), word::low_byte(m.pc));
    registers::stack::push(m, mem, pushed);
    let irq = m.held(names::IRQ);
    m.place(names::IRQ, cleared(n, irq));
    doing::interrupts(m, false);
    m.pc = vector(image, n);
}
