// One timer: some ticks at once.
ghost use Rattle.std.specs.Prelude.{◌≡◌, ◌*◌, ◌/◌, ◌≤◌, ◌<◌};
ghost use Rattle.timers.specs.Control.{or_highest};
ghost use Rattle.timers.specs.Timer.{count_at, takes, moves, stopped, timer_written, LegalSetup, LegalCounting};
ghost use Rattle.timers.specs.ForCode.{down, short_of, turned_of, few_of, ticks};

use crate::{Counting, Setup, Source, Ticked, Timer};

// Whether the timer takes ticks from this source.
fn takes(by: Source, s: Setup) -> bool
    ensures { result ≡ takes by s }
{
    match by {
        Source::Divider => s.divider,
        Source::Edges => s.edges,
    }
}

// Whether a tick from this source moves the timer.
fn moves(by: Source, s: Setup, c: Counting) -> bool
    ensures { result ≡ moves by s c }
{
    c.enabled && takes(by, s)
}

// The count at other numbers.
fn count_at(c: Counting, prescaler: u32, counter: u32) -> Counting
    ensures { result ≡ count_at c prescaler counter }
{
    let timer = Timer { prescaler, counter };
    Counting { timer, ..c }
}

// After the end of a single pass.
fn stopped(prescaler: u32) -> Counting
    ensures { result ≡ stopped prescaler }
{
    let timer = Timer {
        prescaler,
        counter: 256,
    };
    Counting {
        timer,
        enabled: false,
    }
}

// The ticks in so many whole rounds of the prescaler.
fn ticks_in(p: u32, rounds: u32) -> u32
    requires p_bound { p ≤ 64 }
    requires rounds_bound { rounds ≤ 256 }
    ensures { result ≡ p * rounds }
{
    p * rounds
}

// A count that had `rounds` whole rounds of the prescaler to go, r ticks later.
fn down(c: Counting, p: u32, rounds: u32, r: u32) -> Counting
    requires p_nonzero { 0 < p }
    requires r_bound { r < p * rounds }
    ensures { result ≡ down c p rounds r }
{
    count_at(c, p - r % p, rounds - r / p)
}

// k ticks that pass this round of the prescaler, where they don't end the count: the count after them.
#[tactic(auto, unfolding(crate::specs::ForCode::turned_of))]
fn turned(p: u32, c: Counting, k: u32) -> Option<Timer>
    requires p_nonzero { 0 < p }
    requires p_bound { p ≤ 64 }
    requires legal_counting { LegalCounting c }
    requires prescaler_le_k { c.timer.prescaler ≤ k }
    ensures { result ≡ turned_of p k c.timer }
{
    let rounds = c.timer.counter - 1;
    let left = ticks_in(p, rounds);
    let past = k - c.timer.prescaler;
    if past < left {
        let after = down(c, p, rounds, past);
        Some(after.timer)
    } else {
        None
    }
}

// k ticks that stay within this round of the prescaler, or don't move the timer: the count after them.
#[tactic(auto, unfolding(crate::specs::ForCode::short_of))]
fn shortly(moving: bool, c: Counting, k: u32) -> Option<Timer>
    ensures { result ≡ short_of moving k c.timer }
{
    if !moving {
        return Some(c.timer);
    }
    if k < c.timer.prescaler {
        let prescaler = c.timer.prescaler - k;
        return Some(Timer {
            prescaler,
            ..c.timer
        });
    }
    None
}

// k ticks that move the timer, or don't, where they don't end the count: the count after them. Mostly they are short, so P is made of its
// register, `pre`, where it is asked for and not before.
#[tactic(auto, using(crate::proofs::Legal::highest, crate::proofs::Division::by_round))]
pub fn few_ticks(moving: bool, pre: u8, c: Counting, k: u32) -> Option<Timer>
    requires { LegalCounting c }
    ensures { result ≡ few_of moving (or_highest 64 (pre / 4)) k c.timer }
{
    if let Some(timer) = shortly(moving, c, k) {
        return Some(timer);
    }
    let p = crate::registers::or_highest(64, pre / 4);
    turned(p, c, k)
}

// k ticks from this source, by division. They are short; or stay within this count; or pass its end, and the timer stops, or goes on from N
// in whole counts and a part of one.
#[tactic(auto, using(crate::proofs::Division::by_division))]
pub fn advance(by: Source, s: Setup, c: Counting, k: u32) -> Ticked
    requires legal_setup { LegalSetup s }
    requires legal_counting { LegalCounting c }
    ensures { result ≡ ticks by s k c }
{
    let moving = moves(by, s, c);
    if let Some(timer) = shortly(moving, c, k) {
        let counting = Counting { timer, ..c };
        return Ticked { counting, ends: 0 };
    }
    if let Some(timer) = turned(s.p, c, k) {
        let counting = Counting { timer, ..c };
        return Ticked { counting, ends: 0 };
    }
    if !s.repeats {
        let counting = stopped(s.p);
        return Ticked { counting, ends: 1 };
    }
    let left = ticks_in(s.p, c.timer.counter - 1);
    let over = k - c.timer.prescaler - left;
    let whole = ticks_in(s.p, s.n);
    let counting = down(c, s.p, s.n, over % whole);
    Ticked {
        counting,
        ends: 1 + over / whole,
    }
}

// P and N copied where the load bit was written; the enable bit as written.
#[tactic(auto, unfolding(crate::specs::Timer::timer_written))]
pub fn timer_written(s: Setup, load: bool, enable: bool, c: Counting) -> Counting
    ensures { result ≡ timer_written s load enable c }
{
    let timer = if load {
        Timer {
            prescaler: s.p,
            counter: s.n,
        }
    } else {
        c.timer
    };
    Counting {
        timer,
        enabled: enable,
    }
}
