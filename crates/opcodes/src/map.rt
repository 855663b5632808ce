// Where the map has an instruction, by the opcode's nibbles. A last range to 255 stands for the nibble's 15: ranges that cover the
// byte need no `_` arm.
ghost use Rattle.std.specs.Prelude.{◌≡◌};
ghost use Rattle.opcodes.specs.Map.{entry_of};
ghost use Rattle.opcodes.specs.Instruction.{defined};

// Whether the map has an instruction at an opcode, row by row.
pub fn is_defined(op: u8) -> bool
    ensures { result ≡ defined (entry_of op) }
{
    let hi = word::upper(op);
    let lo = word::lower(op);
    match hi {
        0..=7 => lo != 15,
        8..=9 => (lo < 4) | (8 <= lo),
        10..=11 => true,
        12 => (lo < 4) | (7 <= lo),
        13 => lo != 5,
        14 => lo != 2,
        15..=255 => (lo != 2) & (lo != 4) & (lo != 6) & (lo != 7),
    }
}
