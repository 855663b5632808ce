// A machine as 276 bytes, and back (01 "Numbers the encoder sees"; 02, C-11 and C-13).
#![tactic(auto)]

ghost use Rattle.std.specs.Prelude.{◌≡◌, ◌==◌, length, take, Ok, Err, IfOk, IfErr, IsOkUnless};
ghost use Rattle.std.specs.List.{list_all};
ghost use Rattle.numbers.specs.Numbers.{answered, file_length, saved_length};
ghost use Rattle.numbers.specs.declared.Refusal.TheVariants.{Length};
ghost use Rattle.word.specs.Fields.{low_byte};
ghost use Rattle.machine.specs.Legal.{Legal};
ghost use Rattle.saved.specs.Saved.{timer_of, port_of, port_fits, rest_of, machine_of, saved_of, counts_fit, own_fit, mark_fits, holes_empty, bits_clear, legal_of, length_refusal, refusal_of};
ghost use Rattle.saved.specs.ForCode.{load_of};

use machine::{File, Machine, names};
use numbers::Refusal;
use serial::{Port, Receiver, Transmitter};
use timers::Timer;

// The bytes of a saved machine. (Those behind the file go by their numbers below: include/z8.h says which byte is what, the C interface.)
type Saved = [u8; numbers::SAVED_LENGTH];

// The bytes of the register file, which are the first.
fn file_of(saved: &Saved) -> File
    ensures { result ≡ take file_length saved.now }
{
    let mut file = [0u8; numbers::FILE_LENGTH];
    file.copy_from_slice(&saved[..numbers::FILE_LENGTH]);
    file
}

// A counter of 256 is saved as 0.
#[tactic(auto, unfolding(crate::specs::Saved::timer_of))]
fn timer_of(prescaler: u8, counter: u8) -> Timer
    ensures { result ≡ timer_of prescaler counter }
{
    let left = timers::registers::or_highest(256, counter);
    Timer {
        prescaler: u32::from(prescaler),
        counter: left,
    }
}

#[tactic(auto, unfolding(crate::specs::Saved::port_of))]
fn port_of(saved: &Saved) -> Port
    ensures { result ≡ port_of saved.now }
{
    let receiver = Receiver {
        received: saved[268],
        shift: saved[269],
        awaited: saved[270],
        ends: saved[271],
    };
    let transmitter = Transmitter {
        bits: saved[272],
        place: saved[273],
        ends: saved[274],
    };
    Port {
        receiver,
        transmitter,
    }
}

#[tactic(auto, unfolding(crate::specs::Saved::machine_of))]
fn machine_of(saved: &Saved) -> Machine
    ensures { result ≡ machine_of saved.now }
{
    let regs = file_of(saved);
    let pc = word::word(saved[256], saved[257]);
    let t0 = timer_of(saved[259], saved[260]);
    let t1 = timer_of(saved[261], saved[262]);
    let released = word::is_set(0, saved[267]);
    let port = port_of(saved);
    Machine {
        regs,
        pc,
        divider: u32::from(saved[258]),
        t0,
        t1,
        last3: saved[263],
        tout: saved[264] == 1,
        kind: saved[265],
        cost: saved[266],
        released,
        port,
    }
}

// "divider 0 to 3; prescalers 1 to 64"
#[tactic(auto, unfolding(crate::specs::Saved::counts_fit))]
fn counts_fit(divider: u8, prescaler0: u8, prescaler1: u8) -> bool
    ensures { result ≡ counts_fit divider prescaler0 prescaler1 }
{
    (divider <= 3) & (1 <= prescaler0) & (prescaler0 <= 64) & (1 <= prescaler1) & (prescaler1 <= 64)
}

// "entry cost 6 to 63; T_OUT 0 or 1; type 1 or 11"
#[tactic(auto, unfolding(crate::specs::Saved::own_fit))]
fn own_fit(cost: u8, tout: u8, kind: u8) -> bool
    ensures { result ≡ own_fit cost tout kind }
{
    let payable = machine::start::is_cost(u32::from(cost));
    let known = machine::start::is_kind(u32::from(kind));
    payable & (tout <= 1) & known
}

// Byte 267: no bit but bit 0, and where that is clear, IRQ zero.
#[tactic(auto, unfolding(crate::specs::Saved::mark_fits))]
fn mark_fits(bits: u8, irq: u8) -> bool
    ensures { result ≡ mark_fits bits irq }
{
    let released = word::is_set(0, bits);
    (bits <= 1) & (released | (irq == 0))
}

// "places 80 to EF and F0 (hexadecimal) zero"
const HOLES: usize = 0x80;

const HOLES_END: usize = names::SIO as usize + 1;

fn all_zero(bytes: &[u8]) -> bool
    ensures { result ≡ list_all (λ b. b == 0) bytes.now }
{
    bytes.iter().all(|b| *b == 0)
}

fn holes_empty(saved: &Saved) -> bool
    ensures { result ≡ holes_empty saved.now }
{
    all_zero(&saved[HOLES..HOLES_END])
}

// "bits 0 and 2 of TMR, 6 and 7 of IRQ, and 0 to 3 of RP zero"
#[tactic(auto, unfolding(crate::specs::Saved::bits_clear))]
fn bits_clear(tmr: u8, irq: u8, rp: u8) -> bool
    ensures { result ≡ bits_clear tmr irq rp }
{
    let load0 = word::bit(0, tmr);
    let load1 = word::bit(2, tmr);
    let request6 = word::bit(6, irq);
    let request7 = word::bit(7, irq);
    let low = word::lower(rp);
    (load0 == 0) & (load1 == 0) & (request6 == 0) & (request7 == 0) & (low == 0)
}

// The serial port's bytes, and byte 275 zero.
#[tactic(auto, unfolding(crate::specs::Saved::port_fits))]
fn port_fits(p: Port, spare: u8) -> bool
    ensures { result ≡ port_fits p spare }
{
    p.receiver.fits() & p.transmitter.fits() & (spare == 0)
}

#[tactic(auto, unfolding(crate::specs::Saved::legal_of))]
fn is_legal(saved: &Saved) -> bool
    ensures { result ≡ legal_of saved.now }
{
    let counts = counts_fit(saved[258], saved[259], saved[261]);
    let own = own_fit(saved[266], saved[264], saved[265]);
    let mark = mark_fits(saved[267], saved[names::IRQ as usize]);
    let holes = holes_empty(saved);
    let bits = bits_clear(
        saved[names::TMR as usize],
        saved[names::IRQ as usize],
        saved[names::RP as usize],
    );
    let port = port_of(saved);
    let serial = port_fits(port, saved[275]);
    counts & own & mark & holes & bits & serial
}

// The bytes, where these are as many as a saved machine has; or refusal 7.
fn whole(saved: &[u8]) -> Result<&Saved, Refusal>
    ensures value { answered result ≡ length_refusal saved.now }
    ensures taken { IfOk result (λ s. s.now ≡ saved.now) }
    ensures only { IsOkUnless result Length }
{
    saved.as_array().ok_or(Refusal::Length)
}

// The bytes, where they are a saved machine; or refusal 7 or 6.
#[tactic(auto, unfolding(crate::specs::Saved::refusal_of, crate::specs::ForCode::load_of))]
fn legal(saved: &[u8]) -> Result<&Saved, Refusal>
    ensures value { answered result ≡ refusal_of saved.now }
    ensures taken { IfOk result (λ s. (s.now ≡ saved.now) × (load_of saved.now ≡ Ok (machine_of saved.now))) }
    ensures refused { IfErr result (λ e. load_of saved.now ≡ Err e) }
{
    let bytes = whole(saved)?;
    if is_legal(bytes) {
        Ok(bytes)
    } else {
        Err(Refusal::Machine)
    }
}

// Whether these are as many bytes as a saved machine has: refusal 7.
pub fn length_refusal(saved: &[u8]) -> Result<(), Refusal>
    ensures { answered result ≡ length_refusal saved.now }
{
    whole(saved)?;
    Ok(())
}

// Whether bytes are a saved machine: refusals 7 and 6.
pub fn check(saved: &[u8]) -> Result<(), Refusal>
    ensures { answered result ≡ refusal_of saved.now }
{
    legal(saved)?;
    Ok(())
}

#[tactic(auto, using(crate::proofs::RoundTrip::loads_to_legal))]
pub fn load(saved: &[u8]) -> Result<Machine, Refusal>
    ensures value { result ≡ load_of saved.now }
    ensures legal { IfOk result (λ m. Legal m) }
{
    let bytes = legal(saved)?;
    Ok(machine_of(bytes))
}

// (The library's `n.to_le_bytes()[0]` is no plainer.)
fn low(n: u32) -> u8
    ensures { result ≡ low_byte n }
{
    (n % 256) as u8
}

// The last twenty bytes.
#[tactic(auto, unfolding(crate::specs::Saved::rest_of))]
fn rest_of(m: Machine) -> [u8; 20]
    ensures { result ≡ rest_of m }
{
    let t0 = m.t0;
    let t1 = m.t1;
    let port = m.port;
    let receiver = port.receiver;
    let transmitter = port.transmitter;
    let pc_high = word::high_byte(m.pc);
    let pc_low = word::low_byte(m.pc);
    let divider = low(m.divider);
    let prescaler0 = low(t0.prescaler);
    let counter0 = low(t0.counter);
    let prescaler1 = low(t1.prescaler);
    let counter1 = low(t1.counter);
    let tout = word::bits_if(m.tout, 1);
    let released = word::bits_if(m.released, 1);
    [
        pc_high,
        pc_low,
        divider,
        prescaler0,
        counter0,
        prescaler1,
        counter1,
        m.last3,
        tout,
        m.kind,
        m.cost,
        released,
        receiver.received,
        receiver.shift,
        receiver.awaited,
        receiver.ends,
        transmitter.bits,
        transmitter.place,
        transmitter.ends,
        0,
    ]
}

// A machine into its 276 bytes.
// (A slice and no `Saved`: C lends one, of any length, and z8 has it in hand here and in `leave`: the C interface.)
#[tactic(auto, unfolding(crate::specs::Saved::saved_of))]
pub fn save(saved: &mut [u8], m: Machine)
    requires { length saved.old ≡ saved_length }
    ensures { saved.new ≡ saved_of m }
{
    let rest = rest_of(m);
    let (file, behind) = saved.split_at_mut(numbers::FILE_LENGTH);
    file.copy_from_slice(&m.regs);
    behind.copy_from_slice(&rest);
}
