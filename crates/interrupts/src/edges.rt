// Falling edges of the Port 3 pins. `requests` looks ahead and stores nothing, `compare` stores.
ghost use Rattle.std.specs.Prelude.{◌≡◌, ◌<◌};
ghost use Rattle.machine.specs.Names.{IRQ};
ghost use Rattle.machine.specs.State.{held};
ghost use Rattle.machine.specs.Legal.{Legal};
ghost use Rattle.interrupts.specs.Edges.{fell, latched_by, started_by, moved_by_edges, compared_of};
ghost use Rattle.interrupts.specs.ForCode.{comparison, any_fell};

use machine::{Machine, names};
use serial::Port;
use timers::{RequestRegister, Spanned};

// Whether any of P30 to P33 fell.
#[tactic(auto, unfolding(crate::specs::ForCode::any_fell))]
fn any_fell(last: u8, given: u8) -> bool
    ensures { result ≡ any_fell last given }
{
    (last % 16) & (15 - given % 16) != 0
}

// Whether pin n fell. (The pins as they were and as given go side by side in these four: two bytes, which a struct would name no better.)
#[tactic(auto, unfolding(crate::specs::Edges::fell))]
fn fell(n: u8, last: u8, given: u8) -> bool
    requires { n < 8 }
    ensures { result ≡ fell n last given }
{
    word::is_set(n, last) & !word::is_set(n, given)
}

// The request register after the edges, the serial port being on or off.
#[tactic(auto, unfolding(crate::specs::Edges::latched_by))]
fn latched_by(on: bool, last: u8, given: u8, r: RequestRegister) -> RequestRegister
    ensures { result ≡ latched_by on last given r }
{
    let p32 = fell(2, last, given);
    let p33 = fell(3, last, given);
    let p31 = fell(1, last, given);
    let p30 = fell(0, last, given);
    let r0 = r.latched_if(p32, 0);
    let r1 = r0.latched_if(p33, 1);
    let r2 = r1.latched_if(p31, 2);
    r2.latched_if(p30 & !on, 3)
}

// The serial port after the edges.
#[tactic(auto, unfolding(crate::specs::Edges::started_by))]
fn started_by(on: bool, last: u8, given: u8, p: Port) -> Port
    ensures { result ≡ started_by on last given p }
{
    if fell(0, last, given) & on {
        let receiver = p.receiver.start();
        return Port { receiver, ..p };
    }
    p
}

// What the edges move.
#[tactic(auto, unfolding(crate::specs::Edges::moved_by_edges))]
fn moved(m: &Machine, given: u8) -> Spanned
    requires { Legal m.now }
    ensures { result ≡ moved_by_edges m.now given }
{
    let last = m.last3;
    let on = clock::port_mode(m).on;
    let mut latched = clock::moving_of(m);
    latched.lines.requests = latched_by(on, last, given, latched.lines.requests);
    latched.lines.port = started_by(on, last, given, latched.lines.port);
    if fell(1, last, given) {
        timers::clock::edge(clock::control_of(m), latched)
    } else {
        Spanned {
            moving: latched,
            ends0: 0,
            ends1: 0,
        }
    }
}

// IRQ as it stands when the pins have been compared.
#[tactic(auto, using(crate::proofs::Steady::steady, crate::proofs::Steady::requests_seen), unfolding(machine::specs::State::with_last3))]
pub fn requests(m: &Machine, given: u8) -> u8
    requires { Legal m.now }
    ensures { result ≡ held (compared_of m.now given).machine IRQ }
{
    if any_fell(m.last3, given) {
        moved(m, given).moving.lines.requests.irq
    } else {
        m.held(names::IRQ)
    }
}

// The pins compared, and T1's ends by that.
#[tactic(auto, using(crate::proofs::Steady::steady), unfolding(machine::specs::State::with_last3, crate::specs::Edges::compared_of))]
pub fn compare(m: &mut Machine, given: u8) -> u32
    requires { Legal m.old }
    ensures { comparison m.new result ≡ compared_of m.old given }
{
    if !any_fell(m.last3, given) {
        m.last3 = given;
        return 0;
    }
    let x = moved(m, given);
    clock::move_to(m, x.moving);
    m.last3 = given;
    x.ends1
}
