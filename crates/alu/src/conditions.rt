// The sixteen condition codes.
#![tactic(auto, unfolding(crate::specs::Conditions::holds_of))]

ghost use Rattle.std.specs.Prelude.{◌≡◌, ◌<◌};
ghost use Rattle.word.specs.Fields.{upper};
ghost use Rattle.alu.specs.Conditions.{holds_of};
ghost use Rattle.alu.specs.ForCode.{holding_of};

// The codes that hold, a bit for each, at each C, Z, S and V, the upper four bits of FLAGS.
const HOLDING: [u16; 16] = [
    0xFF00, 0xE916, 0xD926, 0xCF30, 0xB34C, 0xA15E, 0x916E, 0x837C, 0x7788, 0x619E, 0x51AE, 0x47B8,
    0x33CC, 0x21DE, 0x11EE, 0x03FC,
];

// The codes that hold of the FLAGS byte f.
fn holding(f: u8) -> u16
    ensures { result ≡ holding_of (upper f) }
{
    HOLDING[usize::from(f / 16)]
}

// Condition code cc, a number below 16, holds of the FLAGS byte f. 8, the blank, is the code of most jumps, and holds before a flag is
// looked at.
// cc stays a number: an enum would be made of the opcode's upper nibble at each call, and turned back into the place of a bit (no plainer).
pub fn holds(cc: u8, f: u8) -> bool
    requires { cc < 16 }
    ensures { result ≡ holds_of cc f }
{
    cc == 8 || (holding(f) >> cc) % 2 == 1
}
