// 01's examples and edges, run: those that are proved are the list of the room `proved`. What this program writes has to be what
// the independent program tests/reference/edges.c writes. (Image lengths are looked at by what C calls.)
#![tactic(auto)]

use clock::Ends;
use machine::{Machine, Pins, names};
use numbers::{Refusal, number_of};
use std::io;

// The places of control registers in a saved machine.
const TMR: usize = names::TMR as usize;

const T1: usize = names::T1 as usize;

const PRE1: usize = names::PRE1 as usize;

const T0: usize = names::T0 as usize;

const PRE0: usize = names::PRE0 as usize;

const IPR: usize = names::IPR as usize;

const IRQ: usize = names::IRQ as usize;

const IMR: usize = names::IMR as usize;

const FLAGS: usize = names::FLAGS as usize;

// The saved form of a new machine with these in R5 and FLAGS, at this program counter.
fn fresh(r5: u8, flags: u8, pc: u8) -> [u8; numbers::SAVED_LENGTH] {
    let mut s = [0u8; numbers::SAVED_LENGTH];
    saved::save(&mut s, Machine::default());
    s[5] = r5;
    s[FLAGS] = flags;
    s[257] = pc;
    s
}

const HIGH: Pins = Pins {
    port0: 0xFF,
    port1: 0xFF,
    port2: 0xFF,
    port3: 0xFF,
};

// A step of the machine in these bytes, told by R4, R5, FLAGS, the program counter and its cycles.
fn step_of(rt: &impl Print, name: &str, s: &[u8], image: &[u8]) -> io::Result<()> {
    let Ok(mut m) = saved::load(s) else {
        return Ok(());
    };
    let mut mem = [0u8; 1];
    let stepped = step::step(&mut m, HIGH, image, &mut mem);
    let mut after = [0u8; numbers::SAVED_LENGTH];
    saved::save(&mut after, m);
    let r4 = after[4];
    let r5 = after[5];
    let flags = after[FLAGS];
    let pc = m.pc;
    let cycles = match stepped {
        Ok(done) => done.cycles,
        Err(_) => 0,
    };
    let refusal = number_of(stepped);
    println!(rt;
        "{name}: R4 {r4:02x} R5 {r5:02x} FLAGS {flags:02x} PC {pc:04x} cycles {cycles} refusal {refusal}"
    )
}

// An instruction on R5, from a FLAGS byte.
fn instruction(
    rt: &impl Print,
    name: &str,
    r5: u8,
    flags: u8,
    image: &[u8],
    pc: u8,
) -> io::Result<()> {
    let s = fresh(r5, flags, pc);
    step_of(rt, name, &s, image)
}

fn instructions(rt: &impl Print) -> io::Result<()> {
    instruction(rt, "44 + 11", 0x44, 0xFC, &[0x06u8, 0x05, 0x11], 0)?;
    instruction(rt, "7B AND C3", 0x7B, 0x70, &[0x56u8, 0x05, 0xC3], 0)?;
    instruction(rt, "00 - 01", 0x00, 0x50, &[0x26u8, 0x05, 0x01], 0)?;
    instruction(rt, "INC 7F", 0x7F, 0x40, &[0x20u8, 0x05], 0)?;
    instruction(rt, "SRA 81", 0x81, 0x50, &[0xD0u8, 0x05], 0)?;
    instruction(rt, "RL 40", 0x40, 0xC0, &[0x90u8, 0x05], 0)?;
    instruction(rt, "DA 3C", 0x3C, 0x60, &[0x40u8, 0x05], 0)?;
    instruction(rt, "DECW 0000", 0x00, 0x00, &[0x80u8, 0x04], 0)?;
    instruction(rt, "DJNZ on 1", 0x01, 0x00, &[0x5Au8, 0x10], 0)?;
    instruction(rt, "DJNZ on 0", 0x00, 0x00, &[0x5Au8, 0x10], 0)
}

// 8B FE at 0010.
fn jump(rt: &impl Print) -> io::Result<()> {
    let mut image = [0xFFu8; 18];
    image[16] = 0x8B;
    image[17] = 0xFE;
    instruction(rt, "8B FE at 0010", 0, 0, &image, 0x10)
}

// IPR 08, IMR BF, IRQ 3F, with 1234 at 000A, on a machine that has executed EI: bit 0 of byte 267 (02, C-13).
fn grant(rt: &impl Print) -> io::Result<()> {
    let mut s = fresh(0, 0, 0);
    s[267] = 1;
    s[IPR] = 0x08;
    s[IMR] = 0xBF;
    s[IRQ] = 0x3F;
    let mut image = [0xFFu8; 16];
    image[10] = 0x12;
    image[11] = 0x34;
    step_of(rt, "IPR 08, IMR BF, IRQ 3F", &s, &image)
}

// n cycles of the machine in these bytes.
fn span_of(s: &[u8], n: u32) -> Result<Ends, Refusal> {
    let mut m = saved::load(s)?;
    Ok(step::span(&mut m, n))
}

// T0's ends in n cycles, freshly loaded by PRE0 and its start byte.
fn span(rt: &impl Print, name: &str, pre0: u8, prescaler: u8, start: u8, n: u32) -> io::Result<()> {
    let mut s = fresh(0, 0, 0);
    s[TMR] = 0x02;
    s[T0] = start;
    s[PRE0] = pre0;
    s[259] = prescaler;
    s[260] = start;
    let Ok(x) = span_of(&s, n) else {
        return Ok(());
    };
    let ends0 = x.ends0;
    println!(rt; "{name}: {n} cycles, ends {ends0}")
}

fn spans(rt: &impl Print) -> io::Result<()> {
    span(rt, "P 3, N 2", 0x0D, 3, 2, 23)?;
    span(rt, "P 3, N 2", 0x0D, 3, 2, 24)?;
    span(rt, "P 3, N 2", 0x0D, 3, 2, 48)?;
    span(rt, "P 64, N 256", 0x01, 64, 0, 65535)?;
    span(rt, "P 64, N 256", 0x01, 64, 0, 65536)
}

// A machine made, or refusal 3.
fn make(rt: &impl Print, cost: u32) -> io::Result<()> {
    let refusal = number_of(Machine::make(11, cost));
    println!(rt; "entry cost {cost}: refusal {refusal}")
}

// A run of a program with no bytes, which is all NOPs.
fn run(rt: &impl Print, budget: u32) -> io::Result<()> {
    let s = fresh(0, 0, 0);
    let Ok(mut m) = saved::load(&s) else {
        return Ok(());
    };
    let mut mem = [0u8; 1];
    let image = [0xFFu8; 1];
    let ran = step::run(&mut m, HIGH, &image, &mut mem, budget);
    let refusal = number_of(ran.ended);
    let cycles = ran.done.cycles;
    println!(rt; "budget {budget}: refusal {refusal}, cycles {cycles}")
}

// Both timers repeating and clocked internally, with P 1 and N 1, freshly loaded and enabled.
fn longest_span(rt: &impl Print, divider: u8) -> io::Result<()> {
    let mut s = fresh(0, 0, 0);
    s[TMR] = 0x0A;
    s[T1] = 1;
    s[PRE1] = 7;
    s[T0] = 1;
    s[PRE0] = 5;
    s[258] = divider;
    s[259] = 1;
    s[260] = 1;
    s[261] = 1;
    s[262] = 1;
    let Ok(x) = span_of(&s, 4294967295) else {
        return Ok(());
    };
    let ends0 = x.ends0;
    let ends1 = x.ends1;
    println!(rt;
        "P 1, N 1, fresh load, 4294967295 cycles from divider {divider}: ends of T0 {ends0}, of T1 {ends1}"
    )
}

fn main(rt: HostRuntime) -> io::Result<()> {
    instructions(&rt)?;
    jump(&rt)?;
    grant(&rt)?;
    spans(&rt)?;
    make(&rt, 5)?;
    make(&rt, 6)?;
    make(&rt, 63)?;
    make(&rt, 64)?;
    run(&rt, 0)?;
    run(&rt, 1000000)?;
    run(&rt, 1000001)?;
    longest_span(&rt, 0)?;
    longest_span(&rt, 1)
}
