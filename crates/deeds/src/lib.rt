// What an instruction is to do, with everything read that it needs and nothing written yet: "Operand addresses and source values are taken
// before anything is written, with RP as it stood" (01). The definitions in specs/ speak of these types; no code makes or takes one but `Code`.
#![tactic(auto)]

use alu::{Flags, Outcome};

// The opcode and the two bytes that follow it. Of these an instruction looks only at those that are its own.
#[derive(Clone, Copy)]
pub struct Code {
    pub op: u8,
    pub first: u8,
    pub second: u8,
}

// Two operands: the destination's address and the source's value. (`operands::Operands` is the code's, with the column's cycles; the definitions
// speak of this one, which may not change.)
#[derive(Clone, Copy)]
pub struct Operands {
    pub dst: u8,
    pub src: u8,
}

// A byte moved without a look at flags: to no place, to a register, or to data memory.
#[derive(Clone, Copy)]
pub enum Transfer {
    Dropped,
    ToRegister(u8, u8),
    ToMemory(u16, u8),
}

// What an instruction is to do.
#[derive(Clone, Copy)]
pub enum Deed {
    Nothing,
    // no flags affected
    Move(Transfer),
    // a byte to the register at an address, and then the flags
    Store(u8, Outcome<u8>),
    // a word to the pair at an address, and then the flags
    StoreWord(u8, Outcome<u16>),
    // the flags alone
    Test(Flags),
    // a transfer, and then 1 is added to a register and to a pair
    Block(Transfer, u8, u8),
    Push(u8),
    // to the register at an address, the byte that is popped
    Pop(u8, u8),
    Call(u16),
    Return(u16),
    // FLAGS and the program counter, as popped
    ReturnFromInterrupt(u8, u16),
    // whether the jump is taken, and where to
    Jump(bool, u16),
    // to the register at an address, its byte less one; whether the jump is taken, and where to
    Loop(u8, u8, bool, u16),
    // bit 7 of IMR set, and IRQ released; bit 7 of IMR cleared
    EnableInterrupts,
    DisableInterrupts,
}
