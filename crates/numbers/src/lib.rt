// The numbers that a caller sees and every room shares (01 "Numbers the encoder sees"): refusals, lengths, limits. specs/Numbers.antt
// has the same under the same names.
#![tactic(auto)]

ghost use Rattle.std.specs.Prelude.{◌≡◌};
ghost use Rattle.numbers.specs.Numbers.{number_of, answered};

// 01's table of refusals, and their numbers in it. 0 is answered where nothing is refused.
#[derive(Clone, Copy, PartialEq, Eq)]
pub enum Refusal {
    Image = 1,
    Data = 2,
    Making = 3,
    Budget = 4,
    Opcode = 5,
    Machine = 6,
    Length = 7,
    Instruction = 8,
}

impl Refusal {
    // The number that a caller sees.
    pub fn number(self) -> u32
        ensures { result ≡ number_of self }
    {
        self as u32
    }
}

// The number that a caller sees of what may be refused: the refusal's, or 0.
pub fn number_of<T: Copy>(outcome: Result<T, Refusal>) -> u32
    ensures { result ≡ answered outcome }
{
    match outcome {
        Ok(_) => 0,
        Err(refusal) => refusal.number(),
    }
}

// The places of a register file, and the bytes of a saved machine: these places, twelve bytes more, and eight of the serial port.
pub const FILE_LENGTH: usize = 256;

pub const SAVED_LENGTH: usize = 276;

// The most bytes of a program image, and of a data memory.
pub const IMAGE_MOST: usize = 65536;

pub const DATA_MOST: usize = 65536;

// The library's version, as include/z8.h and CHANGELOG.md have it.
pub const VERSION_MAJOR: u32 = 3;

pub const VERSION_MINOR: u32 = 0;

pub const VERSION_PATCH: u32 = 0;

// The most cycles of a run's budget.
pub const BUDGET_MOST: u32 = 1000000;
