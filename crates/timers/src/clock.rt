// The divider and both timers: any number of cycles at once, an edge of P31, a write to TMR.
ghost use Rattle.std.specs.Prelude.{◌≡◌, ◌+◌, ◌%◌, ◌<◌};
ghost use Rattle.word.specs.Iter.{iter};
ghost use Rattle.serial.specs.Port.{LegalPort};
ghost use Rattle.timers.specs.Control.{setting_of};
ghost use Rattle.timers.specs.Timer.{LegalSetup};
ghost use Rattle.timers.specs.Clock.{flips, end_of, end0_of, tick_both, begun, cycles, edge_of, tout_written, written, LegalSetting, LegalMoving};
ghost use Rattle.timers.specs.ForCode.{round_of, few_cycles};

use crate::{Control, Lines, Moving, Setting, Setup, Source, Spanned, Timer};
use serial::Mode;

// The T_OUT level after e ends of a timer that drives it, or doesn't.
#[tactic(auto, using(crate::proofs::Ends::level_driven, crate::proofs::Ends::level_kept))]
fn level(drives: bool, tout: bool, e: u32) -> bool
    ensures { result ≡ iter e (flips drives) tout }
{
    if drives && e % 2 == 1 { !tout } else { tout }
}

// What e ends of a timer do.
#[tactic(auto, using(crate::proofs::Ends::ends_apart, crate::proofs::Ends::requests_after))]
fn ended(s: Setup, l: Lines, e: u32) -> Lines
    requires { LegalSetup s }
    ensures { result ≡ iter e (end_of s) l }
{
    let requests = l.requests.latched_if(0 < e, s.request);
    let tout = level(s.drives, l.tout, e);
    Lines {
        requests,
        tout,
        ..l
    }
}

// What e ends of T0 do: while the serial port is on they are its ends.
#[tactic(auto, using(crate::proofs::Ends::ends_on, crate::proofs::Ends::ends_off), unfolding(crate::specs::Clock::asked_for))]
fn ended0(m: Mode, s: Setup, l: Lines, e: u32) -> Lines
    requires legal_setup { LegalSetup s }
    requires legal_port { LegalPort l.port }
    ensures { result ≡ iter e (end0_of m s) l }
{
    if !m.on {
        return ended(s, l, e);
    }
    let x = l.port.ends(m, e);
    let sent = l.requests.latched_if(x.asked4, 4);
    let requests = sent.latched_if(x.asked3, 3);
    let tout = level(s.drives, l.tout, e);
    Lines {
        requests,
        tout,
        port: x.port,
    }
}

// k ticks from this source, for both timers.
#[tactic(auto, using(crate::proofs::Cycles::ticks_apart))]
fn tick_both(by: Source, s: Setting, m: Moving, k: u32) -> Spanned
    requires legal_setting { LegalSetting s }
    requires legal_moving { LegalMoving m }
    ensures { result ≡ iter k (tick_both by s) (begun m) }
{
    let a0 = crate::ticks::advance(by, s.t0, m.t0, k);
    let a1 = crate::ticks::advance(by, s.t1, m.t1, k);
    let first = ended0(s.port, s.t0, m.lines, a0.ends);
    let lines = ended(s.t1, first, a1.ends);
    Spanned {
        moving: Moving {
            t0: a0.counting,
            t1: a1.counting,
            lines,
            ..m
        },
        ends0: a0.ends,
        ends1: a1.ends,
    }
}

// The ticks of the divider in some cycles, and the divider after them.
#[derive(Clone, Copy)]
pub struct Round {
    pub ticks: u32,
    pub divider: u32,
}

fn go_round(divider: u32, n: u32) -> Round
    requires { divider < 4 }
    ensures { result ≡ round_of divider n }
{
    let sum = divider + n % 4;
    let ticks = n / 4 + sum / 4;
    Round {
        ticks,
        divider: sum % 4,
    }
}

// n cycles with no register written and the pins held: the long move. It has no loop and no recursion, and calls nothing
// that has.
#[tactic(auto, using(crate::proofs::Cycles::cycles_apart, crate::proofs::Cycles::ticks_apart, crate::proofs::Legal::setting_legal))]
pub fn span(c: Control, m: Moving, n: u32) -> Spanned
    requires { LegalMoving m }
    ensures { result ≡ cycles (setting_of c) n m }
{
    let s = crate::registers::setting(c);
    let d = go_round(m.divider, n);
    let from = Moving {
        divider: d.divider,
        ..m
    };
    tick_both(Source::Divider, s, from, d.ticks)
}

// What so few cycles move that no count ends in them: the divider and both counts.
#[derive(Clone, Copy)]
pub struct Counts {
    pub divider: u32,
    pub t0: Timer,
    pub t1: Timer,
}

// n cycles, where no count ends in them, as mostly none does. Each test stands before what is asked for after it, so that a timer that is
// off, or stays within its prescaler's round, costs no more than to see that.
#[tactic(auto, unfolding(crate::specs::ForCode::few_cycles, crate::specs::ForCode::few_of, crate::specs::Control::setting_of, crate::specs::Control::setup_of))]
pub fn few_cycles(c: Control, m: Moving, n: u32) -> Option<Counts>
    requires { LegalMoving m }
    ensures { result ≡ few_cycles (setting_of c) n m }
{
    let d = go_round(m.divider, n);
    if !m.t0.enabled & !m.t1.enabled {
        return Some(Counts {
            divider: d.divider,
            t0: m.t0.timer,
            t1: m.t1.timer,
        });
    }
    let t0 = crate::ticks::few_ticks(m.t0.enabled, c.pre0, m.t0, d.ticks)?;
    let moves1 = crate::registers::moves_t1(c, m.t1.enabled);
    let t1 = crate::ticks::few_ticks(moves1, c.pre1, m.t1, d.ticks)?;
    Some(Counts {
        divider: d.divider,
        t0,
        t1,
    })
}

// What a falling edge of P31 does to the timers. (Request 2 is no matter of theirs.)
#[tactic(auto, using(crate::proofs::Legal::setting_legal, word::proofs::Iterate::iter_one), unfolding(crate::specs::Clock::edge_of))]
pub fn edge(c: Control, m: Moving) -> Spanned
    requires { LegalMoving m }
    ensures { result ≡ edge_of (setting_of c) m }
{
    let s = crate::registers::setting(c);
    tick_both(Source::Edges, s, m, 1)
}

// The T_OUT level after a write that loads the timer, or doesn't.
#[tactic(auto, unfolding(crate::specs::Clock::tout_written))]
fn tout_written(s: Setup, load: bool, tout: bool) -> bool
    ensures { result ≡ tout_written s load tout }
{
    (load && s.drives) || tout
}

// What a write to TMR does to all but TMR itself, c.tmr being the byte written; `registers::kept` is what TMR then holds.
#[tactic(auto, unfolding(crate::specs::Clock::written))]
pub fn write_tmr(c: Control, m: Moving) -> Moving
    ensures { result ≡ written c m }
{
    let v = c.tmr;
    let s = crate::registers::setting(c);
    let load0 = word::is_set(0, v);
    let enable0 = word::is_set(1, v);
    let load1 = word::is_set(2, v);
    let enable1 = word::is_set(3, v);
    let t0 = crate::ticks::timer_written(s.t0, load0, enable0, m.t0);
    let t1 = crate::ticks::timer_written(s.t1, load1, enable1, m.t1);
    let first = tout_written(s.t0, load0, m.lines.tout);
    let tout = tout_written(s.t1, load1, first);
    let lines = Lines { tout, ..m.lines };
    Moving { t0, t1, lines, ..m }
}
