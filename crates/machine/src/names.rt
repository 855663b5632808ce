// The control registers F0 to FF under the manual's names (002, R240 to R255; 004, 3.2), as in specs/Names.antt.
pub const SIO: u8 = 0xF0;

pub const TMR: u8 = 0xF1;

pub const T1: u8 = 0xF2;

pub const PRE1: u8 = 0xF3;

pub const T0: u8 = 0xF4;

pub const PRE0: u8 = 0xF5;

pub const P2M: u8 = 0xF6;

pub const P3M: u8 = 0xF7;

pub const P01M: u8 = 0xF8;

pub const IPR: u8 = 0xF9;

pub const IRQ: u8 = 0xFA;

pub const IMR: u8 = 0xFB;

pub const FLAGS: u8 = 0xFC;

pub const RP: u8 = 0xFD;

pub const SPH: u8 = 0xFE;

pub const SPL: u8 = 0xFF;
