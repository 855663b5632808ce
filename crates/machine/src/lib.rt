// The machine: everything that a step reads and writes (01 "Memory and registers"; 004 chapters 3, 6 and 9). A `Machine` goes by value
// at the edges; below them it is lent.
#![tactic(auto)]

pub mod file;
pub mod memory;
pub mod names;
pub mod ports;
pub mod start;

ghost use Rattle.std.specs.Prelude.{◌≡◌};
ghost use Rattle.machine.specs.State.{held, placed};

use serial::Port;
use timers::Timer;

// (`as` is left, here and in the other rooms, where a byte or a word is an index, and where a number is known to fit a narrower type: `TryFrom`
// would answer an error there that can't be, no plainer.)

// The register file: "256 places in address order" (01).
pub type File = [u8; numbers::FILE_LENGTH];

// 01's machine: the register file in address order, the program counter, the divider, both timers' counts in progress, the last Port 3
// pins, the T_OUT level, the type (1 or 11) and the interrupt entry cost; C-13's mark, whether an EI has been executed since the last
// reset; and C-11's serial port. (The type is a number, and what is legal no part of this type: `reset_of`, `saved_of`, `read_reg` and
// `write_reg` speak of any machine, which may not change.)
#[derive(Clone, Copy)]
pub struct Machine {
    pub regs: File,
    pub pc: u16,
    pub divider: u32,
    pub t0: Timer,
    pub t1: Timer,
    pub last3: u8,
    pub tout: bool,
    pub kind: u8,
    pub cost: u8,
    pub released: bool,
    pub port: Port,
}

// The places of its register file.
impl Machine {
    pub fn held(&self, a: u8) -> u8
        ensures { result ≡ held self.now a }
    {
        file::held(&self.regs, a)
    }

    #[tactic(auto, unfolding(crate::specs::State::placed))]
    pub fn place(&mut self, to: u8, v: u8)
        ensures { self.new ≡ placed self.old to v }
    {
        file::place(&mut self.regs, to, v);
    }
}

// The pins of ports 0 to 3, as given with a call. They are no part of the machine.
#[derive(Clone, Copy)]
pub struct Pins {
    pub port0: u8,
    pub port1: u8,
    pub port2: u8,
    pub port3: u8,
}

// One to three bytes, in address order. (No slice: what takes them has three arms, where a slice wants a loop and an invariant.)
#[derive(Clone, Copy)]
pub enum Bytes {
    One(u8),
    Two(u8, u8),
    Three(u8, u8, u8),
}
