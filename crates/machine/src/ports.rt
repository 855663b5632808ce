// Ports 0 to 3: which of their bits are inputs, outputs and address lines.
ghost use Rattle.std.specs.Prelude.{◌≡◌};
ghost use Rattle.machine.specs.Ports.{masked, port0_directions, port1_directions, port2_directions, port3_directions, directions_of, pins_of, port_reads, port_stores};

use crate::Pins;

// Which bits of a port are inputs and which are address lines; the others are outputs.
#[derive(Clone, Copy)]
pub struct Directions {
    pub inputs: u8,
    pub address: u8,
}

// The bits of a where the mask has ones, those of b elsewhere.
fn masked(mask: u8, a: u8, b: u8) -> u8
    ensures { result ≡ masked mask a b }
{
    (mask & a) | (!mask & b)
}

// (The modes of P01M are their fields' numbers: the definitions say that 2 and 3 are one mode, and an enum would be made of the number to
// be asked the same: no plainer.)
fn port0_lines(p01m: u8) -> Directions
    ensures { result ≡ port0_directions p01m }
{
    let high = p01m / 64;
    let low = p01m % 4;
    let high_inputs = word::bits_if(high == 1, 0xF0);
    let low_inputs = word::bits_if(low == 1, 0x0F);
    let high_address = word::bits_if(2 <= high, 0xF0);
    let low_address = word::bits_if(2 <= low, 0x0F);
    Directions {
        inputs: high_inputs | low_inputs,
        address: high_address | low_address,
    }
}

fn port1_lines(p01m: u8) -> Directions
    ensures { result ≡ port1_directions p01m }
{
    let mode = p01m / 8 % 4;
    let inputs = word::bits_if(mode == 1, 0xFF);
    let address = word::bits_if(2 <= mode, 0xFF);
    Directions { inputs, address }
}

fn port2_lines(p2m: u8) -> Directions
    ensures { result ≡ port2_directions p2m }
{
    Directions {
        inputs: p2m,
        address: 0,
    }
}

fn port3_lines() -> Directions
    ensures { result ≡ port3_directions }
{
    Directions {
        inputs: 0x0F,
        address: 0,
    }
}

// The directions of port n. (A number and no enum, here and in `pins_of`: both answer for any n, which may not change.)
pub fn directions_of(p01m: u8, p2m: u8, n: u8) -> Directions
    ensures { result ≡ directions_of p01m p2m n }
{
    match n {
        0 => port0_lines(p01m),
        1 => port1_lines(p01m),
        2 => port2_lines(p2m),
        _ => port3_lines(),
    }
}

// The pins of port n.
pub fn pins_of(pins: Pins, n: u8) -> u8
    ensures { result ≡ pins_of pins n }
{
    match n {
        0 => pins.port0,
        1 => pins.port1,
        2 => pins.port2,
        _ => pins.port3,
    }
}

// What a port reads.
pub fn reads(d: Directions, pins: u8, latch: u8) -> u8
    ensures { result ≡ port_reads d pins latch }
{
    let bits = masked(d.inputs, pins, latch);
    masked(d.address, 0xFF, bits)
}

// What a port's latch holds after v is stored.
pub fn stores(d: Directions, latch: u8, v: u8) -> u8
    ensures { result ≡ port_stores d latch v }
{
    masked(d.address, latch, v)
}
