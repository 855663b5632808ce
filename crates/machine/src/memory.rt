// Program and data memory.
ghost use Rattle.std.specs.Prelude.{◌≡◌, ◌≤◌, length};
ghost use Rattle.machine.specs.Memory.{program_byte, program_three, data_start, data_byte, data_stored, list_of, stored_from};
ghost use Rattle.machine.specs.ForCode.{reach_of};

use crate::{Bytes, Machine};

// Three bytes of the program, in address order: as many as an instruction has at most. (No `[u8; 3]`, and not `deeds::Code`, which says what
// they are of an instruction: `program_three` of the definitions has this record, which may not change.)
#[derive(Clone, Copy)]
pub struct Triple {
    pub first: u8,
    pub second: u8,
    pub third: u8,
}

// A byte of the program. Every vector and LDC goes by it, and every fetch by it or by `program_three` below, which reads the same.
#[tactic(auto, unfolding(crate::specs::Memory::program_byte))]
pub fn program(image: &[u8], a: u16) -> u8
    ensures { result ≡ program_byte image.now a }
{
    image.get(a as usize).copied().unwrap_or(0xFF)
}

// How much of the image addresses reach.
fn reach(image: &[u8]) -> usize
    ensures value { result ≡ reach_of image.now }
    ensures inside { (result ≤ length image.now) × (result ≤ 65536) }
{
    image.len().min(65536)
}

// Three bytes of the program from a on, each as `program` has it. Mostly all three are within the image and no address passes 65,535:
// then one test tells so, where `program` has one for each.
pub fn program_three(image: &[u8], a: u16) -> Triple
    ensures { result ≡ program_three image.now a }
{
    let i = a as usize;
    let end = reach(image);
    if i + 2 < end {
        return Triple {
            first: image[i],
            second: image[i + 1],
            third: image[i + 2],
        };
    }
    let first = program(image, a);
    let second = program(image, word::plus(a, 1));
    let third = program(image, word::plus(a, 2));
    Triple {
        first,
        second,
        third,
    }
}

// Where a type's data memory starts. (The type is a number, and goes beside the memory: `data_byte` answers for any, which may not change,
// and the memory is lent apart from the machine that has the type, by the C interface.)
fn data_start(kind: u8) -> u16
    ensures { result ≡ data_start kind }
{
    if kind == Machine::Z8601 { 2048 } else { 4096 }
}

// A byte of data memory.
#[tactic(auto, unfolding(crate::specs::Memory::data_byte))]
pub fn load(kind: u8, mem: &[u8], a: u16) -> u8
    ensures { result ≡ data_byte kind mem.now a }
{
    if a < data_start(kind) {
        return 0xFF;
    }
    mem.get(a as usize).copied().unwrap_or(0xFF)
}

// A byte stored in data memory.
pub fn store_byte(kind: u8, mem: &mut [u8], a: u16, v: u8)
    ensures { mem.new ≡ data_stored kind mem.old a v }
{
    if a < data_start(kind) {
        return;
    }
    let i = a as usize;
    if i < mem.len() {
        mem[i] = v;
    }
}

// Bytes stored upward in address order. (`write_from` of `registers` is its like for registers; with the store handed to it, one function
// would be no plainer.) This and `store_byte` alone write to data memory.
pub fn store_bytes(kind: u8, mem: &mut [u8], a: u16, b: Bytes)
    ensures { mem.new ≡ stored_from kind mem.old a (list_of b) }
{
    let next = word::plus(a, 1);
    let last = word::plus(next, 1);
    match b {
        Bytes::One(x) => {
            store_byte(kind, mem, a, x);
        }
        Bytes::Two(x, y) => {
            store_byte(kind, mem, a, x);
            store_byte(kind, mem, next, y);
        }
        Bytes::Three(x, y, z) => {
            store_byte(kind, mem, a, x);
            store_byte(kind, mem, next, y);
            store_byte(kind, mem, last, z);
        }
    }
}
