// The clock of a machine: what the timers and the serial port read and move of it, a write to TMR, and any number of cycles.
#![tactic(auto)]

ghost use Rattle.std.specs.Prelude.{◌≡◌};
ghost use Rattle.machine.specs.Clock.{control_with, control_of, moving_of, enabling, counts_at, moved_to, write_tmr, span_of};
ghost use Rattle.machine.specs.Serial.{port_mode};
ghost use Rattle.machine.specs.Legal.{Legal};
ghost use Rattle.clock.specs.ForCode.{ran_of};

use machine::{Machine, names};
use serial::Mode;
use timers::{Control, Counting, Lines, Moving, RequestRegister};

// Each timer's ends in some cycles.
#[derive(Clone, Copy)]
pub struct Ends {
    pub ends0: u32,
    pub ends1: u32,
}

// What the serial port reads of a machine.
#[tactic(auto, unfolding(machine::specs::Serial::port_mode))]
pub fn port_mode(m: &Machine) -> Mode
    ensures { result ≡ port_mode m.now }
{
    timers::registers::port_mode(m.held(names::P3M), m.last3)
}

#[tactic(auto, unfolding(machine::specs::Clock::control_with))]
fn control_with(m: &Machine, tmr: u8) -> Control
    ensures { result ≡ control_with m.now tmr }
{
    Control {
        tmr,
        t1: m.held(names::T1),
        pre1: m.held(names::PRE1),
        t0: m.held(names::T0),
        pre0: m.held(names::PRE0),
        p3m: m.held(names::P3M),
        port3: m.last3,
    }
}

// What they read of a machine.
#[tactic(auto, unfolding(machine::specs::Clock::control_of))]
pub fn control_of(m: &Machine) -> Control
    ensures { result ≡ control_of m.now }
{
    control_with(m, m.held(names::TMR))
}

// What cycles move of a machine.
#[tactic(auto, unfolding(machine::specs::Clock::moving_of))]
pub fn moving_of(m: &Machine) -> Moving
    ensures { result ≡ moving_of m.now }
{
    let tmr = m.held(names::TMR);
    Moving {
        divider: m.divider,
        t0: Counting {
            timer: m.t0,
            enabled: word::is_set(1, tmr),
        },
        t1: Counting {
            timer: m.t1,
            enabled: word::is_set(3, tmr),
        },
        lines: Lines {
            requests: RequestRegister {
                irq: m.held(names::IRQ),
                released: m.released,
            },
            tout: m.tout,
            port: m.port,
        },
    }
}

// TMR with these enable bits.
#[tactic(auto, unfolding(machine::specs::Clock::enabling))]
fn enabling(tmr: u8, on0: bool, on1: bool) -> u8
    ensures { result ≡ enabling tmr on0 on1 }
{
    let bit0 = word::bits_if(on0, 0x02);
    let bit1 = word::bits_if(on1, 0x08);
    (tmr & 0xF5) | (bit0 | bit1)
}

// The machine with these counts and this T_OUT level; the file stays.
#[tactic(auto, unfolding(machine::specs::Clock::counts_at))]
fn put(m: &mut Machine, x: Moving)
    ensures { m.new ≡ counts_at m.old x }
{
    m.divider = x.divider;
    m.t0 = x.t0.timer;
    m.t1 = x.t1.timer;
    m.tout = x.lines.tout;
}

// The machine with all that cycles move as given.
#[tactic(auto, unfolding(machine::specs::Clock::moved_to, machine::specs::State::with_released, machine::specs::State::with_port))]
pub fn move_to(m: &mut Machine, x: Moving)
    ensures { m.new ≡ moved_to m.old x }
{
    let tmr = m.held(names::TMR);
    put(m, x);
    m.port = x.lines.port;
    m.released = x.lines.requests.released;
    m.place(names::TMR, enabling(tmr, x.t0.enabled, x.t1.enabled));
    m.place(names::IRQ, x.lines.requests.irq);
}

// A write to TMR.
#[tactic(auto, unfolding(machine::specs::Clock::write_tmr))]
pub fn write_tmr(m: &mut Machine, v: u8)
    ensures { m.new ≡ write_tmr m.old v }
{
    let x = timers::clock::write_tmr(control_with(m, v), moving_of(m));
    put(m, x);
    m.place(names::TMR, timers::registers::kept(v));
}

// n cycles of a machine, by division: the long move. (That the machine is legal is asked here and above, and is no part of its type, as
// `Machine` says.)
#[tactic(auto, using(machine::proofs::Lens::span_is), unfolding(machine::specs::Clock::shown))]
pub fn long_span(m: &mut Machine, n: u32) -> Ends
    requires { Legal m.old }
    ensures { ran_of m.new result ≡ span_of n m.old }
{
    let x = timers::clock::span(control_of(m), moving_of(m), n);
    move_to(m, x.moving);
    Ends {
        ends0: x.ends0,
        ends1: x.ends1,
    }
}

// The same for few cycles, as a step costs: mostly no count ends in them, and then the file is left alone. (No twin of the long move, which it
// goes on to.)
pub fn span(m: &mut Machine, n: u32) -> Ends
    requires { Legal m.old }
    ensures { ran_of m.new result ≡ span_of n m.old }
{
    if let Some(x) = timers::clock::few_cycles(control_of(m), moving_of(m), n) {
        m.divider = x.divider;
        m.t0 = x.t0;
        m.t1 = x.t1;
        return Ends { ends0: 0, ends1: 0 };
    }
    long_span(m, n)
}
