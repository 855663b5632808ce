// The stack, internal in the register file or external in data memory.
ghost use Rattle.std.specs.Prelude.{◌≡◌, ◌<◌, ◌≤◌, length};
ghost use Rattle.machine.specs.Memory.{list_of};
ghost use Rattle.machine.specs.Stack.{is_internal, sp_of, sp_set, written_from, pushed_internal, pushed_external, pushed, stack_byte, raised};
ghost use Rattle.machine.specs.ForCode.{left, stacked};

use machine::{Bytes, Machine, Pins, names};

// Whether the stack is internal.
pub fn is_internal(m: &Machine) -> bool
    ensures { result ≡ is_internal m.now }
{
    word::is_set(2, m.held(names::P01M))
}

#[tactic(auto, unfolding(machine::specs::Stack::sp_of))]
fn sp_of(m: &Machine) -> u16
    ensures { result ≡ sp_of m.now }
{
    word::word(m.held(names::SPH), m.held(names::SPL))
}

#[tactic(auto, unfolding(machine::specs::Stack::sp_set))]
fn set_sp(m: &mut Machine, sp: u16)
    ensures { m.new ≡ sp_set m.old sp }
{
    m.place(names::SPH, word::high_byte(sp));
    m.place(names::SPL, word::low_byte(sp));
}

fn count_of(b: Bytes) -> u8
    ensures { (result ≡ length (list_of b)) × (result ≤ 3) × (0 < result) }
{
    match b {
        Bytes::One(_) => 1,
        Bytes::Two(_, _) => 2,
        Bytes::Three(_, _, _) => 3,
    }
}

// Bytes stored to registers upward from a, as `store_bytes` of machine stores to data memory.
fn write_from(m: &mut Machine, a: u8, b: Bytes)
    ensures { m.new ≡ written_from m.old a (list_of b) }
{
    let next = a.wrapping_add(1);
    let last = next.wrapping_add(1);
    match b {
        Bytes::One(x) => {
            crate::write(m, a, x);
        }
        Bytes::Two(x, y) => {
            crate::write(m, a, x);
            crate::write(m, next, y);
        }
        Bytes::Three(x, y, z) => {
            crate::write(m, a, x);
            crate::write(m, next, y);
            crate::write(m, last, z);
        }
    }
}

// (Beside `push_external`: SPL or the pair, registers or data memory; with all four handed over one function is longer than both, no plainer.)
#[tactic(auto, unfolding(machine::specs::Stack::pushed_internal))]
fn push_internal(m: &mut Machine, b: Bytes)
    ensures { m.new ≡ (pushed_internal m.old b).machine }
{
    let sp = m.held(names::SPL).wrapping_sub(count_of(b));
    m.place(names::SPL, sp);
    write_from(m, sp, b);
}

#[tactic(auto, unfolding(machine::specs::Stack::pushed_external, machine::specs::Stack::sp_set, machine::specs::State::placed, machine::specs::Memory::stored_in))]
fn push_external(m: &mut Machine, mem: &mut [u8], b: Bytes)
    ensures { left m.new mem.new ≡ stacked m.old.kind mem.old (pushed_external m.old b) }
{
    let down = 65536 - u32::from(count_of(b));
    let sp = word::plus(sp_of(m), down as u16);
    set_sp(m, sp);
    machine::memory::store_bytes(m.kind, mem, sp, b);
}

// Bytes pushed, in address order.
#[tactic(auto, unfolding(machine::specs::Stack::pushed, machine::specs::Stack::pushed_internal, machine::specs::Memory::stored_in))]
pub fn push(m: &mut Machine, mem: &mut [u8], b: Bytes)
    ensures { left m.new mem.new ≡ stacked m.old.kind mem.old (pushed m.old b) }
{
    if is_internal(m) {
        push_internal(m, b);
    } else {
        push_external(m, mem, b);
    }
}

// The byte i above the top of the stack.
#[tactic(auto, unfolding(machine::specs::Stack::stack_byte))]
pub fn byte_at(m: &Machine, pins: Pins, mem: &[u8], i: u8) -> u8
    ensures { result ≡ stack_byte pins m.now mem.now i }
{
    if is_internal(m) {
        return crate::read(m, pins, m.held(names::SPL).wrapping_add(i));
    }
    let a = word::plus(sp_of(m), u16::from(i));
    machine::memory::load(m.kind, mem, a)
}

// SP after n bytes are popped.
#[tactic(auto, unfolding(machine::specs::Stack::raised))]
pub fn raise(m: &mut Machine, n: u8)
    ensures { m.new ≡ raised m.old n }
{
    if is_internal(m) {
        m.place(names::SPL, m.held(names::SPL).wrapping_add(n));
    } else {
        set_sp(m, word::plus(sp_of(m), u16::from(n)));
    }
}
