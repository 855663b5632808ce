// What a C program calls (include/z8.h). Any lengths, bytes and numbers get an answer: nothing is required here. What a caller lends
// is loaded, lent to the rooms below, and saved again; a refused call returns before it writes.
#![tactic(auto)]

ghost use Rattle.std.specs.Prelude.{◌≡◌, List, ℕ, Ok, IfOk, IsOkUnless, length};
ghost use Rattle.numbers.specs.Numbers.{answered, version, saved_length};
ghost use Rattle.numbers.specs.declared.Refusal.TheVariants.{Image};
ghost use Rattle.machine.specs.Legal.{Legal};
ghost use Rattle.saved.specs.Saved.{machine_of, refusal_of};
ghost use Rattle.step.specs.ForCode.{stepped_in};
ghost use Rattle.z8.specs.Calls.{answer, lent, lent_span, four, pins_given, image_refusal, memory_refusal, left_by, make_of, make_default_of, reset_call_of, decode_call_of, encode_call_of, step_call_of, run_call_of, span_call_of};
ghost use Rattle.z8.specs.ForCode.{admitted_of, decoded_at};

use machine::{Machine, Pins};
use numbers::{Refusal, number_of};
use opcodes::Decoded;
use step::Tally;

// Which version of the library is linked.
#[unsafe(no_mangle)]
pub extern "C" fn z8_version() -> u32
    ensures { result ≡ version }
{
    65536 * numbers::VERSION_MAJOR + 256 * numbers::VERSION_MINOR + numbers::VERSION_PATCH
}

// A new machine of that type and entry cost: 7, 3.
#[unsafe(no_mangle)]
pub extern "C" fn z8_make(saved: &mut [u8], kind: u32, cost: u32) -> u32
    ensures { answer result saved.new ≡ make_of kind cost saved.old }
{
    number_of(make_in(saved, kind, cost))
}

fn make_in(saved: &mut [u8], kind: u32, cost: u32) -> Result<(), Refusal>
    ensures { answer (answered result) saved.new ≡ make_of kind cost saved.old }
{
    saved::length_refusal(saved)?;
    let m = Machine::make(kind, cost)?;
    saved::save(saved, m);
    Ok(())
}

// A new machine where nothing is named: 7. (Beside `z8_make`, and `z8_run` beside `z8_step`: include/z8.h has each, the C interface.)
#[unsafe(no_mangle)]
pub extern "C" fn z8_make_default(saved: &mut [u8]) -> u32
    ensures { answer result saved.new ≡ make_default_of saved.old }
{
    number_of(make_default_in(saved))
}

fn make_default_in(saved: &mut [u8]) -> Result<(), Refusal>
    ensures { answer (answered result) saved.new ≡ make_default_of saved.old }
{
    saved::length_refusal(saved)?;
    saved::save(saved, Machine::default());
    Ok(())
}

// Whether it is a saved machine: 7, 6.
#[unsafe(no_mangle)]
pub extern "C" fn z8_check(saved: &[u8]) -> u32
    ensures { result ≡ refusal_of saved.now }
{
    number_of(saved::check(saved))
}

// The machine after a reset: 7, 6.
#[unsafe(no_mangle)]
pub extern "C" fn z8_reset(saved: &mut [u8]) -> u32
    ensures { answer result saved.new ≡ reset_call_of saved.old }
{
    number_of(reset_in(saved))
}

fn reset_in(saved: &mut [u8]) -> Result<(), Refusal>
    ensures { answer (answered result) saved.new ≡ reset_call_of saved.old }
{
    let m = saved::load(saved)?;
    let started = machine::start::reset(m);
    saved::save(saved, started);
    Ok(())
}

// The instruction at an address of the image: 1, 5.
#[unsafe(no_mangle)]
pub extern "C" fn z8_decode(
    image: &[u8],
    at: u16,
    opcode: &mut u8,
    first: &mut u8,
    second: &mut u8,
    size: &mut u8,
) -> u32
    ensures { answer result (four opcode.new first.new second.new size.new) ≡ decode_call_of image.now at (four opcode.old first.old second.old size.old) }
{
    let decoded = decoded_at(image, at);
    if let Ok(i) = decoded {
        *opcode = i.op;
        *first = i.first;
        *second = i.second;
        *size = i.size;
    }
    number_of(decoded)
}

#[tactic(auto, unfolding(crate::specs::ForCode::decoded_at))]
fn decoded_at(image: &[u8], at: u16) -> Result<Decoded, Refusal>
    ensures { result ≡ decoded_at image.now at }
{
    image_refusal(image)?;
    let i = execute::fetch(image, at);
    opcodes::instruction::decode(i.op, i.first, i.second)
}

// An instruction's bytes: 8.
#[unsafe(no_mangle)]
pub extern "C" fn z8_encode(
    opcode: u8,
    first: u8,
    second: u8,
    byte0: &mut u8,
    byte1: &mut u8,
    byte2: &mut u8,
    size: &mut u8,
) -> u32
    ensures { answer result (four byte0.new byte1.new byte2.new size.new) ≡ encode_call_of opcode first second (four byte0.old byte1.old byte2.old size.old) }
{
    let encoded = opcodes::instruction::encode(opcode, first, second);
    if let Ok(e) = encoded {
        *byte0 = e.byte0;
        *byte1 = e.byte1;
        *byte2 = e.byte2;
        *size = e.size;
    }
    number_of(encoded)
}

// Refusal 1 where the image is too long.
fn image_refusal(image: &[u8]) -> Result<(), Refusal>
    ensures value { answered result ≡ image_refusal image.now }
    ensures only { IsOkUnless result Image }
{
    if numbers::IMAGE_MOST < image.len() {
        Err(Refusal::Image)
    } else {
        Ok(())
    }
}

// Refusal 2 where the data memory is too long. (Beside `image_refusal`: with the limit and the refusal handed to it one function is as long,
// and each call says more: no plainer.)
fn memory_refusal(memory: &[u8]) -> Result<(), Refusal>
    ensures { answered result ≡ memory_refusal memory.now }
{
    if numbers::DATA_MOST < memory.len() {
        Err(Refusal::Data)
    } else {
        Ok(())
    }
}

// The machine that is to step or to run; or the first of refusals 7, 6, 1 and 2 that applies.
fn admitted(saved: &[u8], image: &[u8], memory: &[u8]) -> Result<Machine, Refusal>
    ensures value { answered result ≡ admitted_of saved.now image.now memory.now }
    ensures machine { IfOk result (λ m. (m ≡ machine_of saved.now) × Legal m) }
    ensures long { IfOk result (λ m. length saved.now ≡ saved_length) }
{
    let m = saved::load(saved)?;
    image_refusal(image)?;
    memory_refusal(memory)?;
    Ok(m)
}

// The pins of ports 0 to 3.
fn pins_given(pins0: u8, pins1: u8, pins2: u8, pins3: u8) -> Pins
    ensures { result ≡ pins_given pins0 pins1 pins2 pins3 }
{
    Pins {
        port0: pins0,
        port1: pins1,
        port2: pins2,
        port3: pins3,
    }
}

// What steps came to, in the places lent; the data memory has it already.
// (C lends the numbers one by one, so no struct holds their places, and the machine's bytes as a slice, so that its length is required here:
// the C interface.)
fn leave(
    m: Machine,
    done: Tally,
    saved: &mut [u8],
    cycles: &mut u32,
    ends0: &mut u32,
    ends1: &mut u32,
)
    requires { length saved.old ≡ saved_length }
    ensures { (memory : List ℕ) → lent saved.new memory cycles.new ends0.new ends1.new ≡ left_by (stepped_in m memory (Ok done)) }
{
    saved::save(saved, m);
    *cycles = done.cycles;
    *ends0 = done.ends0;
    *ends1 = done.ends1;
}

// One step: 7, 6, 1, 2, 5. With 5 `step` has left the memory as it was.
#[unsafe(no_mangle)]
pub extern "C" fn z8_step(
    saved: &mut [u8],
    image: &[u8],
    memory: &mut [u8],
    pins0: u8,
    pins1: u8,
    pins2: u8,
    pins3: u8,
    cycles: &mut u32,
    ends0: &mut u32,
    ends1: &mut u32,
) -> u32
    ensures { answer result (lent saved.new memory.new cycles.new ends0.new ends1.new) ≡ step_call_of (pins_given pins0 pins1 pins2 pins3) image.now (lent saved.old memory.old cycles.old ends0.old ends1.old) }
{
    let pins = pins_given(pins0, pins1, pins2, pins3);
    number_of(step_in(saved, image, memory, pins, cycles, ends0, ends1))
}

fn step_in(
    saved: &mut [u8],
    image: &[u8],
    memory: &mut [u8],
    pins: Pins,
    cycles: &mut u32,
    ends0: &mut u32,
    ends1: &mut u32,
) -> Result<(), Refusal>
    ensures { answer (answered result) (lent saved.new memory.new cycles.new ends0.new ends1.new) ≡ step_call_of pins image.now (lent saved.old memory.old cycles.old ends0.old ends1.old) }
{
    let mut m = admitted(saved, image, memory)?;
    let done = step::step(&mut m, pins, image, memory)?;
    leave(m, done, saved, cycles, ends0, ends1);
    Ok(())
}

// The bounded run: 7, 6, 1, 2, 4; and 5, with what was done before.
#[unsafe(no_mangle)]
pub extern "C" fn z8_run(
    saved: &mut [u8],
    image: &[u8],
    memory: &mut [u8],
    pins0: u8,
    pins1: u8,
    pins2: u8,
    pins3: u8,
    budget: u32,
    cycles: &mut u32,
    ends0: &mut u32,
    ends1: &mut u32,
) -> u32
    ensures { answer result (lent saved.new memory.new cycles.new ends0.new ends1.new) ≡ run_call_of (pins_given pins0 pins1 pins2 pins3) image.now budget (lent saved.old memory.old cycles.old ends0.old ends1.old) }
{
    let pins = pins_given(pins0, pins1, pins2, pins3);
    number_of(run_in(saved, image, memory, pins, budget, cycles, ends0, ends1))
}

fn run_in(
    saved: &mut [u8],
    image: &[u8],
    memory: &mut [u8],
    pins: Pins,
    budget: u32,
    cycles: &mut u32,
    ends0: &mut u32,
    ends1: &mut u32,
) -> Result<(), Refusal>
    ensures { answer (answered result) (lent saved.new memory.new cycles.new ends0.new ends1.new) ≡ run_call_of pins image.now budget (lent saved.old memory.old cycles.old ends0.old ends1.old) }
{
    let mut m = admitted(saved, image, memory)?;
    // asked here, before `step::run` asks it: with 4 nothing that is lent is written, where `leave` writes what a run came to
    if numbers::BUDGET_MOST < budget {
        return Err(Refusal::Budget);
    }
    let ran = step::run(&mut m, pins, image, memory, budget);
    leave(m, ran.done, saved, cycles, ends0, ends1);
    ran.ended
}

// Cycles and nothing else, in one move by division: 7, 6.
#[unsafe(no_mangle)]
pub extern "C" fn z8_span(saved: &mut [u8], span: u32, ends0: &mut u32, ends1: &mut u32) -> u32
    ensures { answer result (lent_span saved.new ends0.new ends1.new) ≡ span_call_of span (lent_span saved.old ends0.old ends1.old) }
{
    number_of(span_in(saved, span, ends0, ends1))
}

fn span_in(saved: &mut [u8], span: u32, ends0: &mut u32, ends1: &mut u32) -> Result<(), Refusal>
    ensures { answer (answered result) (lent_span saved.new ends0.new ends1.new) ≡ span_call_of span (lent_span saved.old ends0.old ends1.old) }
{
    let mut m = saved::load(saved)?;
    let e = step::span(&mut m, span);
    saved::save(saved, m);
    *ends0 = e.ends0;
    *ends1 = e.ends1;
    Ok(())
}
