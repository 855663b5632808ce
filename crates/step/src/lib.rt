// The whole chip: one step, the bounded run, the span (01 "One step").
#![tactic(auto)]

ghost use Rattle.std.specs.Prelude.{◌≡◌, true, false, List, ℕ, ◌≤◌};
ghost use Rattle.numbers.specs.Numbers.{refused_opcode, budget_most};
ghost use Rattle.machine.specs.Legal.{Legal};
ghost use Rattle.machine.specs.Clock.{span_of};
ghost use Rattle.clock.specs.ForCode.{ran_of};
ghost use Rattle.execute.specs.ForCode.{left_with, performed_by};
ghost use Rattle.interrupts.specs.Grants.{grant_of};
ghost use Rattle.step.specs.Step.{granted_or, step_of};
ghost use Rattle.step.specs.Run.{nothing_done, steps_of, run_of};
ghost use Rattle.step.specs.ForCode.{stepped_in, run_in, is_refused_of};

use clock::Ends;
use machine::{Machine, Pins, names};
use numbers::Refusal;

// What whole steps come to in numbers. (Not the cycles beside a `clock::Ends`: the definitions of a step and a run have all three by name,
// side by side, so that it is no plainer.)
#[derive(Clone, Copy)]
pub struct Tally {
    pub cycles: u32,
    pub ends0: u32,
    pub ends1: u32,
}

impl Tally {
    const NOTHING: Tally = Tally {
        cycles: 0,
        ends0: 0,
        ends1: 0,
    };
}

// A run: what its whole steps come to, and whether it reached its budget or was refused.
#[derive(Clone, Copy)]
pub struct Progress {
    pub done: Tally,
    pub ended: Result<(), Refusal>,
}

// A grant, or else an instruction, where the pins have been compared: its cycles.
fn act(m: &mut Machine, pins: Pins, image: &[u8], mem: &mut [u8]) -> Result<u32, Refusal>
    ensures { left_with m.new mem.new result ≡ performed_by m.old mem.old (granted_or pins image.now mem.old m.old (grant_of m.old)) }
{
    let irq = m.held(names::IRQ);
    let imr = m.held(names::IMR);
    let ipr = m.held(names::IPR);
    match interrupts::grants::granted(irq, imr, ipr) {
        None => perform::execute_here(m, pins, mem, image),
        Some(n) => {
            let cost = u32::from(m.cost);
            interrupts::entry::enter(m, mem, image, n);
            Ok(cost)
        }
    }
}

// One step, where the pins given are the last already, so that there is nothing to compare.
fn step_in(m: &mut Machine, pins: Pins, image: &[u8], mem: &mut [u8]) -> Result<Tally, Refusal>
    requires legal { Legal m.old }
    requires rest_value { m.old.last3 ≡ pins.port3 }
    ensures { stepped_in m.new mem.new result ≡ step_of pins image.now mem.old m.old }
{
    let cycles = act(m, pins, image, mem)?;
    let e = clock::span(m, cycles);
    Ok(Tally {
        cycles,
        ends0: e.ends0,
        ends1: e.ends1,
    })
}

// Whether the next step is refused: nothing is granted, the edges counted, and the opcode is undefined. That is known before anything is
// stored.
fn is_refused(m: &Machine, pins: Pins, image: &[u8]) -> bool
    requires { Legal m.now }
    ensures value { result ≡ is_refused_of pins image.now m.now }
    ensures refused { result ≡ true → (mem : List ℕ) → step_of pins image.now mem m.now ≡ nothing_done refused_opcode m.now mem }
    ensures taken { result ≡ false → (mem : List ℕ) → (step_of pins image.now mem m.now).refusal ≡ 0 }
{
    let irq = interrupts::edges::requests(m, pins.port3);
    let standing = interrupts::grants::standing(irq, m.held(names::IMR));
    match interrupts::grants::highest(standing, m.held(names::IPR)) {
        None => !opcodes::map::is_defined(machine::memory::program(image, m.pc)),
        Some(_) => false,
    }
}

// Steps in turn until their cycles reach the budget, or one is refused. "A run holds the pins": after the first step they are the last, so
// they are compared once, before the steps, where the first is not refused. (The loop goes by cycles, and counts no index.)
fn steps(m: &mut Machine, pins: Pins, image: &[u8], mem: &mut [u8], budget: u32) -> Progress
    requires legal { Legal m.old }
    requires budget_le_budget_most { budget ≤ budget_most }
    ensures { run_in m.new mem.new result ≡ steps_of pins image.now mem.old m.old budget }
{
    if budget == 0 {
        return Progress {
            done: Tally::NOTHING,
            ended: Ok(()),
        };
    }
    if is_refused(m, pins, image) {
        return Progress {
            done: Tally::NOTHING,
            ended: Err(Refusal::Opcode),
        };
    }
    let mut cycles: u32 = 0;
    let mut ends0: u32 = 0;
    let mut ends1 = interrupts::edges::compare(m, pins.port3);
    while cycles < budget {
        match step_in(m, pins, image, mem) {
            Ok(s) => {
                cycles += s.cycles;
                ends0 += s.ends0;
                ends1 += s.ends1;
            }
            Err(e) => {
                return Progress {
                    done: Tally {
                        cycles,
                        ends0,
                        ends1,
                    },
                    ended: Err(e),
                };
            }
        }
    }
    Progress {
        done: Tally {
            cycles,
            ends0,
            ends1,
        },
        ended: Ok(()),
    }
}

// The bounded run.
pub fn run(m: &mut Machine, pins: Pins, image: &[u8], mem: &mut [u8], budget: u32) -> Progress
    requires { Legal m.old }
    ensures { run_in m.new mem.new result ≡ run_of pins image.now mem.old m.old budget }
{
    if numbers::BUDGET_MOST < budget {
        return Progress {
            done: Tally::NOTHING,
            ended: Err(Refusal::Budget),
        };
    }
    steps(m, pins, image, mem, budget)
}

// One step. It costs a cycle at least, so it is the run that reaches a budget of one.
pub fn step(m: &mut Machine, pins: Pins, image: &[u8], mem: &mut [u8]) -> Result<Tally, Refusal>
    requires { Legal m.old }
    ensures { stepped_in m.new mem.new result ≡ step_of pins image.now mem.old m.old }
{
    let one = run(m, pins, image, mem, 1);
    one.ended?;
    Ok(one.done)
}

// n cycles, in one move by division.
pub fn span(m: &mut Machine, n: u32) -> Ends
    requires { Legal m.old }
    ensures { ran_of m.new result ≡ span_of n m.old }
{
    clock::long_span(m, n)
}
