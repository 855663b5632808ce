// The divider and the two timers (01 "The timers"; 004 chapter 11), and what their ends touch, the serial port among it. The definition goes by single cycles; the code moves any
// number of cycles by division. What the cycles read (`Control`, `Setting`) stands apart from what they move (`Moving`).
#![tactic(auto)]

pub mod clock;
pub mod registers;
pub mod requests;
mod ticks;

use serial::{Mode, Port};

// (Control and Moving go side by side: what is read and what is moved; one struct would say that a move moves both.)
// All that the timers and the serial port read: the control registers F1 to F5 and P3M in address order, and the last Port 3 pins. Of
// TMR the cycles read the modes alone; its enable bits, which an end may clear, are with what moves, and are put back into TMR's place by who keeps it.
#[derive(Clone, Copy)]
pub struct Control {
    pub tmr: u8,
    pub t1: u8,
    pub pre1: u8,
    pub t0: u8,
    pub pre0: u8,
    pub p3m: u8,
    pub port3: u8,
}

// What is legal stands in `requires` and not in the types: `clock::write_tmr` takes any `Moving`, which may not change; and of
// the three that ask it of a `Setup` two ask it of a count or of the port too, whose clauses would stay (no plainer).

// Where a tick comes from: the divider, or the falling edges of P31.
#[derive(Clone, Copy)]
pub enum Source {
    Divider,
    Edges,
}

// What a timer's ticks read: start values P and N, whether it repeats, whether it takes the divider's ticks and those of edges,
// which request its end latches, and whether its end flips T_OUT.
#[derive(Clone, Copy)]
pub struct Setup {
    pub p: u32,
    pub n: u32,
    pub repeats: bool,
    pub divider: bool,
    pub edges: bool,
    pub request: u8,
    pub drives: bool,
}

// What both timers read, and the serial port.
#[derive(Clone, Copy)]
pub struct Setting {
    pub t0: Setup,
    pub t1: Setup,
    pub port: Mode,
}

// A count in progress, which is a machine's timer record: the prescaler 1 to 64, the counter 1 to 256.
#[derive(Clone, Copy)]
pub struct Timer {
    pub prescaler: u32,
    pub counter: u32,
}

// The same with the timer's enable bit, which stands in TMR.
#[derive(Clone, Copy)]
pub struct Counting {
    pub timer: Timer,
    pub enabled: bool,
}

// A timer after some ticks, and how many of them ended its count.
#[derive(Clone, Copy)]
pub struct Ticked {
    pub counting: Counting,
    pub ends: u32,
}

// The request register: what IRQ holds, and whether an EI has released it.
#[derive(Clone, Copy)]
pub struct RequestRegister {
    pub irq: u8,
    pub released: bool,
}

// What the ends touch: the request register, the T_OUT level, and the serial port.
#[derive(Clone, Copy)]
pub struct Lines {
    pub requests: RequestRegister,
    pub tout: bool,
    pub port: Port,
}

// All that cycles move.
#[derive(Clone, Copy)]
pub struct Moving {
    pub divider: u32,
    pub t0: Counting,
    pub t1: Counting,
    pub lines: Lines,
}

// The same after some cycles, with each timer's ends. (By two names, as include/z8.h has them and the definitions say of each: no plainer
// as a pair or an array.)
#[derive(Clone, Copy)]
pub struct Spanned {
    pub moving: Moving,
    pub ends0: u32,
    pub ends1: u32,
}
