// The opcode map: what each opcode is, and its length; decoding and encoding. Its cycles are a definition (specs/Cycles.antt): the code has
// them where the kind is known, in the rooms of the rows.
#![tactic(auto)]

pub mod instruction;
pub mod map;

// The address mode of one operand: a working register named in the opcode (r), a register (R; of a word a pair, RR), an
// indirect register (IR).
#[derive(Clone, Copy)]
pub enum One {
    Work,
    Reg,
    Ind,
}

// The address modes of two operands, destination and source.
#[derive(Clone, Copy)]
pub enum Two {
    // r,r
    WorkWork,
    // r,Ir
    WorkInd,
    // R,R
    RegReg,
    // R,IR
    RegInd,
    // R,IM
    RegImm,
    // IR,IM
    IndImm,
    // r,IM
    WorkImm,
    // r,R
    WorkReg,
    // R,r
    RegWork,
    // r,X
    WorkIndexed,
    // X,r
    IndexedWork,
    // Ir,r
    IndWork,
    // IR,R
    IndReg,
}

// Between a register and a memory: into the register, or out of it.
#[derive(Clone, Copy)]
pub enum Way {
    In,
    Out,
}

// Where a jump or a call goes: to the address in the instruction (DA), or to that in a register pair (IRR).
#[derive(Clone, Copy)]
pub enum Target {
    Direct,
    Pair,
}

// The pages that make a result of destination and source and store it in the destination.
#[derive(Clone, Copy)]
pub enum Binary {
    Adc,
    Add,
    And,
    Or,
    Sbc,
    Sub,
    Xor,
}

// The pages that test destination and source, and store nothing.
#[derive(Clone, Copy)]
pub enum Test {
    Cp,
    Tcm,
    Tm,
}

// The pages that make a result of the destination alone.
#[derive(Clone, Copy)]
pub enum Unary {
    Com,
    Dec,
    Inc,
    Rl,
    Rlc,
    Rr,
    Rrc,
    Sra,
    Swap,
}

// The same for a register pair.
#[derive(Clone, Copy)]
pub enum Paired {
    Decw,
    Incw,
}

// The kind of an instruction: its page in chapter 5, and its address modes where the page has several. Pages that read and store alike
// are one kind, with the page inside it.
#[derive(Clone, Copy)]
pub enum Kind {
    Binary(Binary, Two),
    Test(Test, Two),
    Unary(Unary, One),
    Paired(Paired, One),
    Call(Target),
    Ccf,
    Clr(One),
    Da(One),
    Di,
    Djnz,
    Ei,
    Iret,
    Jp(Target),
    Jr,
    Ld(Two),
    Ldc(Way),
    Ldci(Way),
    Lde(Way),
    Ldei(Way),
    Nop,
    Pop(One),
    Push(One),
    Rcf,
    Ret,
    Scf,
    Srp,
}

// An instruction: the opcode, its operand bytes (those it hasn't being zero) and its length.
#[derive(Clone, Copy)]
pub struct Decoded {
    pub op: u8,
    pub first: u8,
    pub second: u8,
    pub size: u8,
}

// What an instruction is encoded to: three bytes, unused ones zero, and its length. (No slice: C lends a place for each, the C interface.)
#[derive(Clone, Copy)]
pub struct Encoded {
    pub byte0: u8,
    pub byte1: u8,
    pub byte2: u8,
    pub size: u8,
}
