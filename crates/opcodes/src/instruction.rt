// Lengths, and an instruction from its bytes and to its bytes.
ghost use Rattle.std.specs.Prelude.{◌≡◌, leb};
ghost use Rattle.word.specs.Choose.{pick};
ghost use Rattle.opcodes.specs.Instruction.{length_of, decode_of, encode_of};

use crate::{Decoded, Encoded};
use numbers::Refusal;

// An instruction's length, by the lower nibble; CALL @RR is the one exception, and is asked for in its own column alone.
#[tactic(auto, using(crate::proofs::Cells::nibble), unfolding(crate::specs::Instruction::length_of))]
pub fn length_of(op: u8) -> u8
    ensures { result ≡ length_of op }
{
    let lo = word::lower(op);
    match lo {
        0..=3 | 8..=12 => 2,
        4 => if op == 0xD4 { 2 } else { 3 },
        5..=7 | 13 => 3,
        _ => 1,
    }
}

// Operand byte b, the instruction's byte number n: zero where an instruction of that length hasn't it.
fn operand(n: u8, size: u8, b: u8) -> u8
    ensures { result ≡ pick (leb n size) b 0 }
{
    if n <= size { b } else { 0 }
}

// The instruction that begins at the first of three bytes of a program.
#[tactic(auto, using(crate::proofs::Cells::decoded_where, crate::proofs::Cells::decoded_where_not))]
pub fn decode(op: u8, a: u8, b: u8) -> Result<Decoded, Refusal>
    ensures { result ≡ decode_of op a b }
{
    if !crate::map::is_defined(op) {
        return Err(Refusal::Opcode);
    }
    let size = length_of(op);
    let first = operand(2, size, a);
    let second = operand(3, size, b);
    Ok(Decoded {
        op,
        first,
        second,
        size,
    })
}

// An instruction's bytes.
#[tactic(auto, unfolding(crate::specs::Instruction::encode_of))]
pub fn encode(op: u8, first: u8, second: u8) -> Result<Encoded, Refusal>
    ensures { result ≡ encode_of op first second }
{
    let defined = crate::map::is_defined(op);
    let size = length_of(op);
    let own_first = operand(2, size, first);
    let own_second = operand(3, size, second);
    if defined & (own_first == first) & (own_second == second) {
        Ok(Encoded {
            byte0: op,
            byte1: first,
            byte2: second,
            size,
        })
    } else {
        Err(Refusal::Instruction)
    }
}
