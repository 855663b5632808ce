// The core's answers to questions about bytes and instructions that nothing else goes through whole, as a checksum for each question.
// What it writes has to be what the independent program tests/reference/answers.c writes, which shares nothing with the core but the
// questions. What a call of the C library can be asked as well is asked there (tests/compare.c).
#![tactic(auto)]

use alu::{Flags, Outcome};
use std::io;

// An answer as one number: whether a byte is stored, the byte, the FLAGS byte after.
trait Answer {
    fn number(self, laid: u8) -> u32;
}

impl Answer for Outcome<u8> {
    fn number(self, laid: u8) -> u32 {
        65536 + u32::from(self.value) * 256 + u32::from(alu::lay(laid, self.flags))
    }
}

impl Answer for Flags {
    fn number(self, laid: u8) -> u32 {
        u32::from(alu::lay(laid, self))
    }
}

// What an operation on two bytes is asked: the bytes, the FLAGS byte that it reads, and the one that its flags are laid on.
#[derive(Clone, Copy)]
struct Question {
    dst: u8,
    src: u8,
    read: u8,
    laid: u8,
}

// Question i: all pairs of bytes, all C D H of the flags read, laid on a FLAGS byte of zeros and on one of ones.
fn asked(i: u32) -> Question {
    let k = (i % 16) as u8;
    Question {
        dst: (i / 4096 % 256) as u8,
        src: (i / 16 % 256) as u8,
        read: k / 4 % 2 * 128 + k / 2 % 2 * 8 + k % 2 * 4,
        laid: k / 8 % 2 * 255,
    }
}

fn displaced(i: u32) -> u32 {
    u32::from(word::moved((i % 65536) as u16, (i / 65536 % 256) as u8))
}

// Four bytes as one number, the length first.
fn packed(length: u8, op: u8, a: u8, b: u8) -> u32 {
    u32::from_be_bytes([length, op, a, b])
}

fn decoding(i: u32) -> u32 {
    let [_, op, a, b] = i.to_be_bytes();
    match opcodes::instruction::decode(op, a, b) {
        Ok(d) => packed(d.size, d.op, d.first, d.second),
        Err(refusal) => refusal.number(),
    }
}

fn encoding(i: u32) -> u32 {
    let [_, op, a, b] = i.to_be_bytes();
    match opcodes::instruction::encode(op, a, b) {
        Ok(e) => packed(e.size, e.byte0, e.byte1, e.byte2),
        Err(refusal) => refusal.number(),
    }
}

fn length(i: u32) -> u32 {
    u32::from(opcodes::instruction::length_of((i % 256) as u8))
}

fn mixed(h: u32, x: u32) -> u32 {
    ((u64::from(h) * 31 + u64::from(x)) % 4294967291) as u32
}

// A line: a name, and the checksum of the first n answers.
fn line<F: Fn(u32) -> u32>(rt: &impl Print, name: &str, n: u32, answer: F) -> io::Result<()>
    requires { F.IsAlwaysCallable answer }
{
    let sum = (0..n).fold(0, |h, i| mixed(h, answer(i)));
    println!(rt; "{name} {sum:08x}")
}

// All pairs of bytes with sixteen pairs of flags.
const BYTES: u32 = 1048576;

// All triples of bytes.
const TRIPLES: u32 = 16777216;

// The line of an operation on two bytes.
fn operation<A: Answer, F: Fn(Question) -> A>(rt: &impl Print, name: &str, of: F) -> io::Result<()>
    requires { F.IsAlwaysCallable of }
{
    line(rt, name, BYTES, |i| {
        let q = asked(i);
        of(q).number(q.laid)
    })
}

fn main(rt: HostRuntime) -> io::Result<()> {
    operation(&rt, "ADD", |q| alu::arithmetic::add(q.dst, q.src))?;
    operation(&rt, "ADC", |q| alu::arithmetic::adc(q.dst, q.src, q.read))?;
    operation(&rt, "SUB", |q| alu::arithmetic::sub(q.dst, q.src))?;
    operation(&rt, "SBC", |q| alu::arithmetic::sbc(q.dst, q.src, q.read))?;
    operation(&rt, "CP", |q| alu::arithmetic::cp(q.dst, q.src))?;
    operation(&rt, "AND", |q| alu::logical::and(q.dst, q.src))?;
    operation(&rt, "OR", |q| alu::logical::or(q.dst, q.src))?;
    operation(&rt, "XOR", |q| alu::logical::xor(q.dst, q.src))?;
    operation(&rt, "TM", |q| alu::logical::tm(q.dst, q.src))?;
    operation(&rt, "TCM", |q| alu::logical::tcm(q.dst, q.src))?;
    line(&rt, "displacements", TRIPLES, displaced)?;
    line(&rt, "decoding", TRIPLES, decoding)?;
    line(&rt, "encoding", TRIPLES, encoding)?;
    line(&rt, "lengths", 256, length)
}
