// The request register. A request is its number, which is bit n here and the vector's place 2n in `interrupts`: an enum would be made of that
// number, and read back to it, and be no plainer.
ghost use Rattle.std.specs.Prelude.{◌≡◌, ◌<◌};
ghost use Rattle.timers.specs.Requests.{latch, latched_if};

use crate::RequestRegister;

impl RequestRegister {
    // Request n latched, where IRQ is released.
    #[tactic(auto, using(crate::proofs::Latched::held_latch), unfolding(crate::specs::Requests::latch))]
    pub fn latch(self, n: u8) -> Self
        requires { n < 6 }
        ensures { result ≡ latch n self }
    {
        if !self.released {
            return self;
        }
        let irq = self.irq | (1 << n);
        RequestRegister { irq, ..self }
    }

    // Request n latched, where it was asked for.
    #[tactic(auto, unfolding(crate::specs::Requests::latched_if))]
    pub fn latched_if(self, asked: bool, n: u8) -> Self
        requires { n < 6 }
        ensures { result ≡ latched_if asked n self }
    {
        if asked { self.latch(n) } else { self }
    }
}
