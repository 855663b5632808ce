// The receiver.
ghost use Rattle.std.specs.Prelude.{◌≡◌, ◌≤◌};
ghost use Rattle.word.specs.Iter.{iter};
ghost use Rattle.serial.specs.Receiver.{waiting, started, entered, LegalReceiver, receiver_fits};
ghost use Rattle.serial.specs.ForCode.{heard_ends};

use crate::{Clocked, Mode, Receiver, unasked};

// The shift register after k bits of this level.
fn shifted(high: bool, shift: u8, k: u8) -> u8
    requires { k ≤ 8 }
    ensures { result ≡ iter k (entered high) shift }
{
    let above = word::bits_if(high, 0xFF);
    let both = word::word(above, shift);
    word::low_byte(both >> (k as u16))
}

impl Receiver {
    // Waiting for a start bit.
    pub fn waiting(received: u8) -> Self
        ensures { result ≡ waiting received }
    {
        Receiver {
            received,
            shift: 0xFF,
            awaited: 0,
            ends: 0,
        }
    }

    // A falling edge of P30.
    #[tactic(auto, unfolding(crate::specs::Receiver::started))]
    pub fn start(self) -> Self
        ensures { result ≡ started self }
    {
        if 0 < self.awaited {
            return self;
        }
        Receiver {
            awaited: 1,
            ends: 0,
            ..self
        }
    }

    // n ends of T0 past the middle of the start bit. A character is over with the 128th end after it; d is how many that are, with these.
    #[tactic(auto, using(crate::proofs::Ranges::data_range, crate::proofs::Reception::hears_out))]
    fn hear_data(self, m: Mode, n: u32) -> Clocked<Self>
        requires legal_receiver { LegalReceiver self }
        requires le_awaited { 2 ≤ self.awaited }
        ensures { result ≡ heard_ends m.parity m.high n self }
    {
        let before = self.awaited - 2;
        let gone = 16 * before + self.ends;
        let d = u64::from(gone) + u64::from(n);
        if d < 128 {
            let at = d as u8;
            let bits = at / 16;
            let shift = shifted(m.high, self.shift, bits - before);
            return unasked(Receiver {
                shift,
                awaited: bits + 2,
                ends: at % 16,
                ..self
            });
        }
        let character = shifted(m.high, self.shift, 8 - before);
        let byte = crate::parity::received(m.parity, character);
        Clocked {
            half: Receiver::waiting(byte),
            asked: true,
        }
    }

    // n ends of T0, P30 held: to the middle of the start bit, where it is looked at again, d ends after the edge; and from there on.
    #[tactic(auto, using(crate::proofs::Reception::to_the_middle))]
    pub fn hear(self, m: Mode, n: u32) -> Clocked<Self>
        requires { LegalReceiver self }
        ensures { result ≡ heard_ends m.parity m.high n self }
    {
        if self.awaited == 0 {
            return unasked(self);
        }
        if 1 < self.awaited {
            return self.hear_data(m, n);
        }
        let d = u64::from(self.ends) + u64::from(n);
        if d < 8 {
            return unasked(Receiver {
                ends: d as u8,
                ..self
            });
        }
        if m.high {
            return unasked(Receiver::waiting(self.received));
        }
        let begun = Receiver {
            shift: 0x7F,
            awaited: 2,
            ends: 0,
            ..self
        };
        begun.hear_data(m, (d - 8) as u32)
    }

    // Whether the four bytes are a receiver.
    #[tactic(auto, unfolding(crate::specs::Receiver::receiver_fits))]
    pub fn fits(self) -> bool
        ensures { result ≡ receiver_fits self }
    {
        match self.awaited {
            0 => (self.shift == 0xFF) & (self.ends == 0),
            1 => (self.shift == 0xFF) & (self.ends < 8),
            _ => (self.awaited < 10) & (self.ends < 16),
        }
    }
}
