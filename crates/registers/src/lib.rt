// What a register's address reads, and what a store to it does; operand addresses and pairs; the stack.
#![tactic(auto)]

pub mod addresses;
pub mod stack;

ghost use Rattle.std.specs.Prelude.{◌≡◌};
ghost use Rattle.word.specs.Fields.{low_byte};
ghost use Rattle.machine.specs.Serial.{read_sio, write_sio};
ghost use Rattle.machine.specs.Registers.{read_port, write_port, read_hole, write_hole, write_irq, read_reg, write_reg};
ghost use Rattle.machine.specs.Names.{P01M, P2M};
ghost use Rattle.machine.specs.State.{held};
ghost use Rattle.machine.specs.Ports.{directions_of};
ghost use Rattle.machine.specs.ForCode.{is_general};

use machine::ports::Directions;
use machine::{Machine, Pins, names};
use timers::Timer;

// The directions of port a, by P01M and P2M as they stand.
fn directions(m: &Machine, a: u8) -> Directions
    ensures { result ≡ directions_of (held m.now P01M) (held m.now P2M) a }
{
    machine::ports::directions_of(m.held(names::P01M), m.held(names::P2M), a)
}

#[tactic(auto, unfolding(machine::specs::Registers::read_port))]
fn read_port(m: &Machine, pins: Pins, a: u8) -> u8
    ensures { result ≡ read_port pins m.now a }
{
    let pin = machine::ports::pins_of(pins, a);
    machine::ports::reads(directions(m, a), pin, m.held(a))
}

#[tactic(auto, unfolding(machine::specs::Registers::write_port))]
fn write_port(m: &mut Machine, a: u8, v: u8)
    ensures { m.new ≡ write_port m.old a v }
{
    let after = machine::ports::stores(directions(m, a), m.held(a), v);
    m.place(a, after);
}

// What F0 reads: the byte received last, while the serial port is on.
#[tactic(auto, unfolding(machine::specs::Serial::read_sio))]
fn read_sio(m: &Machine) -> u8
    ensures { result ≡ read_sio m.now }
{
    if clock::port_mode(m).on {
        m.port.receiver.received
    } else {
        0xFF
    }
}

// A store to F0: a send begins, while the serial port is on.
#[tactic(auto, unfolding(machine::specs::Serial::write_sio, machine::specs::State::with_transmitter, machine::specs::State::with_port))]
fn write_sio(m: &mut Machine, v: u8)
    ensures { m.new ≡ write_sio m.old v }
{
    let mode = clock::port_mode(m);
    if mode.on {
        m.port.transmitter = serial::Transmitter::store(mode.parity, v);
    }
}

// What 80 to F0 read. The match in `read_any` and `write_any` goes by ranges and few single addresses, which the compiler tests one after
// the other and so keeps what TMR needs out of the other ways: F0 is told from the holes here.
fn read_hole(m: &Machine, a: u8) -> u8
    ensures { result ≡ read_hole m.now a }
{
    if a == names::SIO { read_sio(m) } else { 0xFF }
}

// What a store to them does.
fn write_hole(m: &mut Machine, a: u8, v: u8)
    ensures { m.new ≡ write_hole m.old a v }
{
    if a == names::SIO {
        write_sio(m, v);
    }
}

// A store to FA, which is dropped until an EI has been executed.
#[tactic(auto, unfolding(machine::specs::Registers::write_irq))]
fn write_irq(m: &mut Machine, v: u8)
    ensures { m.new ≡ write_irq m.old v }
{
    if m.released {
        m.place(names::IRQ, v % 64);
    }
}

// R4 to R127: what a program uses most is looked at first.
fn is_general(a: u8) -> bool
    ensures { result ≡ is_general a }
{
    (0x04 <= a) & (a < 0x80)
}

// A count in progress as F2 and F4 read it. (`saved` has its like for a machine's bytes: one expression each, no plainer shared.)
fn counter(t: Timer) -> u8
    ensures { result ≡ low_byte t.counter }
{
    (t.counter % 256) as u8
}

// What register a reads, whichever it is.
pub fn read_any(m: &Machine, pins: Pins, a: u8) -> u8
    ensures { result ≡ read_reg pins m.now a }
{
    match a {
        0x00..=0x03 => read_port(m, pins, a),
        0x80..=names::SIO => read_hole(m, a),
        names::T1 => counter(m.t1),
        names::PRE1 => 0xFF,
        names::T0 => counter(m.t0),
        names::PRE0..=names::IPR => 0xFF,
        names::IMR => m.held(a) & 0xBF,
        _ => m.held(a),
    }
}

// What register a reads. (No twin of `read_any`, which it goes on to; docs/PROVING.md, "What it runs at", has why both are
// called.)
#[tactic(auto, using(machine::proofs::Ranges::general_range, machine::proofs::Ranges::general_reads))]
pub fn read(m: &Machine, pins: Pins, a: u8) -> u8
    ensures { result ≡ read_reg pins m.now a }
{
    if is_general(a) {
        return m.held(a);
    }
    read_any(m, pins, a)
}

// A store of v to register a, whichever it is.
pub fn write_any(m: &mut Machine, a: u8, v: u8)
    ensures { m.new ≡ write_reg m.old a v }
{
    match a {
        0x00..=0x03 => {
            write_port(m, a, v);
        }
        0x80..=names::SIO => {
            write_hole(m, a, v);
        }
        names::TMR => {
            clock::write_tmr(m, v);
        }
        names::IRQ => {
            write_irq(m, v);
        }
        names::RP => {
            m.place(a, v / 16 * 16);
        }
        _ => {
            m.place(a, v);
        }
    }
}

// A store of v to register a.
#[tactic(auto, using(machine::proofs::Ranges::general_range, machine::proofs::Ranges::general_stores))]
pub fn write(m: &mut Machine, a: u8, v: u8)
    ensures { m.new ≡ write_reg m.old a v }
{
    if is_general(a) {
        m.place(a, v);
        return;
    }
    write_any(m, a, v);
}
