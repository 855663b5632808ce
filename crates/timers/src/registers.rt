// What the control registers tell the timers.
ghost use Rattle.std.specs.Prelude.{◌≡◌, ◌&&◌};
ghost use Rattle.timers.specs.Control.{or_highest, setup_of, internal, tin_mode, p31, divider_moves_t1, edges_move_t1, mode_of, setting_of, kept};

use crate::{Control, Setting, Setup};
use serial::Mode;

// A count whose field 0 stands for the highest: a prescaler field, a start byte, a saved counter. (The library has `NonZero` and an
// `Option` for it, and back: no plainer.)
#[tactic(auto, unfolding(crate::specs::Control::or_highest))]
pub fn or_highest(top: u32, field: u8) -> u32
    ensures { result ≡ or_highest top field }
{
    if field == 0 { top } else { u32::from(field) }
}

#[tactic(auto, unfolding(crate::specs::Control::setup_of))]
fn setup(pre: u8, start: u8, divider: bool, edges: bool, request: u8, drives: bool) -> Setup
    ensures { result ≡ setup_of pre start divider edges request drives }
{
    Setup {
        p: or_highest(64, pre / 4),
        n: or_highest(256, start),
        repeats: word::is_set(0, pre),
        divider,
        edges,
        request,
        drives,
    }
}

// The mode, as T_OUT's in `setting`, is its field's number, and no enum: it would be made of the number at each call and asked once, no
// plainer.
#[tactic(auto, unfolding(crate::specs::Control::divider_moves_t1))]
fn divider_moves_t1(internal: bool, mode: u8, high: bool) -> bool
    ensures { result ≡ divider_moves_t1 internal mode high }
{
    internal || (mode == 1 && high)
}

#[tactic(auto, unfolding(crate::specs::Control::edges_move_t1))]
fn edges_move_t1(internal: bool, mode: u8) -> bool
    ensures { result ≡ edges_move_t1 internal mode }
{
    !internal && mode == 0
}

// Whether the divider's ticks move T1, by its enable bit. Test after test, since mostly the first or the second decides.
#[tactic(auto, unfolding(crate::specs::Control::divider_moves_t1))]
pub fn moves_t1(c: Control, enabled: bool) -> bool
    ensures { result ≡ enabled && divider_moves_t1 (internal c.pre1) (tin_mode c.tmr) (p31 c.port3) }
{
    if !enabled {
        return false;
    }
    if word::is_set(1, c.pre1) {
        return true;
    }
    let mode = c.tmr / 16 % 4;
    let p31 = word::is_set(1, c.port3);
    divider_moves_t1(false, mode, p31)
}

// What the serial port reads of P3M and of Port 3.
#[tactic(auto, unfolding(crate::specs::Control::mode_of))]
pub fn port_mode(p3m: u8, port3: u8) -> Mode
    ensures { result ≡ mode_of p3m port3 }
{
    Mode {
        on: word::is_set(6, p3m),
        parity: word::is_set(7, p3m),
        high: word::is_set(0, port3),
    }
}

#[tactic(auto, unfolding(crate::specs::Control::setting_of))]
pub fn setting(c: Control) -> Setting
    ensures { result ≡ setting_of c }
{
    let tout = c.tmr / 64;
    let mode = c.tmr / 16 % 4;
    let internal = word::is_set(1, c.pre1);
    let high = word::is_set(1, c.port3);
    let divider = divider_moves_t1(internal, mode, high);
    let edges = edges_move_t1(internal, mode);
    Setting {
        t0: setup(c.pre0, c.t0, true, false, 4, tout == 1),
        t1: setup(c.pre1, c.t1, divider, edges, 5, tout == 2),
        port: port_mode(c.p3m, c.port3),
    }
}

// What a byte written to TMR leaves there: the load bits read back 0.
#[tactic(auto, unfolding(crate::specs::Control::kept))]
pub fn kept(v: u8) -> u8
    ensures { result ≡ kept v }
{
    v & 0xFA
}
