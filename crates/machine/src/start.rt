// Reset, and the new machine.
ghost use Rattle.std.specs.Prelude.{◌≡◌};
ghost use Rattle.machine.specs.Start.{placed_all, reset_places, started_with, reset_of, new_of, default_of, is_kind, is_cost, made_of, full_timer, resting_port};

use crate::{File, Machine, names};
use numbers::Refusal;
use serial::Port;
use timers::Timer;

fn full_timer() -> Timer
    ensures { result ≡ full_timer }
{
    Timer {
        prescaler: 64,
        counter: 256,
    }
}

// The serial port at rest.
fn resting_port() -> Port
    ensures { result ≡ resting_port }
{
    let receiver = serial::Receiver::waiting(0);
    let transmitter = serial::Transmitter::idle();
    Port {
        receiver,
        transmitter,
    }
}

// The places that reset writes, in address order, and what they then hold: the ports' latches, and F0 to FF.
const RESET_PLACES: [(u8, u8); 20] = [
    (0x00, 0),
    (0x01, 0),
    (0x02, 0),
    (0x03, 0),
    (names::SIO, 0),
    (names::TMR, 0),
    (names::T1, 0),
    (names::PRE1, 0),
    (names::T0, 0),
    (names::PRE0, 0),
    (names::P2M, 0xFF),
    (names::P3M, 0),
    (names::P01M, 0x4D),
    (names::IPR, 0),
    (names::IRQ, 0),
    (names::IMR, 0),
    (names::FLAGS, 0),
    (names::RP, 0),
    (names::SPH, 0),
    (names::SPL, 0),
];

#[tactic(auto, unfolding(crate::specs::Start::reset_places))]
fn reset_places(regs: &mut File)
    ensures { regs.new ≡ placed_all regs.old reset_places }
{
    for &(a, v) in &RESET_PLACES {
        crate::file::place(regs, a, v);
    }
}

// The machine as it starts, of a file whose R4 to R127 stay.
fn started_with(file: File, kind: u8, cost: u8) -> Machine
    ensures { result ≡ started_with file kind cost }
{
    let mut regs = file;
    reset_places(&mut regs);
    let t0 = full_timer();
    let t1 = full_timer();
    let port = resting_port();
    Machine {
        regs,
        pc: 0x000C,
        divider: 0,
        t0,
        t1,
        last3: 0xFF,
        tout: true,
        kind,
        cost,
        released: false,
        port,
    }
}

// The machine after a reset.
#[tactic(auto, unfolding(crate::specs::Start::reset_of))]
pub fn reset(m: Machine) -> Machine
    ensures { result ≡ reset_of m }
{
    let file = m.regs;
    started_with(file, m.kind, m.cost)
}

// Whether there is such a type. (This and `is_cost` are no `TryFrom`: docs/PROMISES.md names them, and `saved` asks them of numbers that stay
// numbers: what may not change.)
pub fn is_kind(kind: u32) -> bool
    ensures { result ≡ is_kind kind }
{
    (kind == u32::from(Machine::Z8601)) | (kind == u32::from(Machine::Z8611))
}

// Whether an interrupt entry may cost so much.
pub fn is_cost(cost: u32) -> bool
    ensures { result ≡ is_cost cost }
{
    (u32::from(Machine::LEAST_COST) <= cost) & (cost <= u32::from(Machine::MOST_COST))
}

impl Machine {
    // The types: 1 is the Z8601 and 11 the Z8611.
    pub const Z8601: u8 = 1;

    pub const Z8611: u8 = 11;

    pub const LEAST_COST: u8 = 6;

    pub const MOST_COST: u8 = 63;

    // What a new machine has where nothing is named.
    pub const DEFAULT_KIND: u8 = Machine::Z8611;

    pub const DEFAULT_COST: u8 = 20;

    // A new machine of this type and entry cost.
    #[tactic(auto, unfolding(crate::specs::Start::new_of))]
    fn fresh(kind: u8, cost: u8) -> Self
        ensures { result ≡ new_of kind cost }
    {
        let file = [0u8; numbers::FILE_LENGTH];
        started_with(file, kind, cost)
    }

    // A new machine of this type and entry cost, or refusal 3.
    #[tactic(auto, unfolding(crate::specs::Start::made_of))]
    pub fn make(kind: u32, cost: u32) -> Result<Self, Refusal>
        ensures { result ≡ made_of kind cost }
    {
        let known = is_kind(kind);
        let payable = is_cost(cost);
        if known & payable {
            Ok(Machine::fresh(kind as u8, cost as u8))
        } else {
            Err(Refusal::Making)
        }
    }
}

// A new machine where nothing is named.
impl Default for Machine {
    ghost is_default = { λ m. m ≡ default_of };

    #[tactic(auto, unfolding(crate::specs::Start::default_of))]
    fn default() -> Self
        ensures { result ≡ default_of }
    {
        Machine::fresh(Machine::DEFAULT_KIND, Machine::DEFAULT_COST)
    }
}
