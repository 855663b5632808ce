// The columns of the opcode map: the operands of an instruction, and where the next one is.
#![tactic(auto)]

pub mod columns;

// (The instruction, its place pc and this go side by side to the rows, by one `requires`, `At`, which ties them to the machine: no type
// of their own could hold that, as the machine is lent and moves on.)
// What a column says of an instruction: the destination's address, the source's value, the cycles.
#[derive(Clone, Copy)]
pub struct Operands {
    pub dst: u8,
    pub src: u8,
    pub cycles: u32,
}
