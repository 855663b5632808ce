// Which request is granted.
ghost use Rattle.std.specs.Prelude.{◌≡◌, [], ◌∷◌, ◌<◌};
ghost use Rattle.word.specs.Choose.{pick};
ghost use Rattle.word.specs.Fields.{is_set};
ghost use Rattle.interrupts.specs.Grants.{group_order, priorities, first_standing, granted};
ghost use Rattle.interrupts.specs.ForCode.{standing_of};

// (Bits by their numbers, as `word::is_set` asks for: what may not change.)
// The higher of a group's two requests that stands, the second being the higher where the group's bit of IPR is set.
fn of_group(standing: u8, ipr: u8, order: u8, first: u8, second: u8) -> Option<u8>
    requires order_bound { order < 8 }
    requires first_bound { first < 8 }
    requires second_bound { second < 8 }
    ensures { result ≡ first_standing (pick (is_set order ipr) (second ∷ first ∷ []) (first ∷ second ∷ [])) standing }
{
    if word::is_set(order, ipr) {
        of_two(standing, second, first)
    } else {
        of_two(standing, first, second)
    }
}

// The higher of two requests that stands.
#[tactic(auto, unfolding(crate::specs::Grants::first_standing))]
fn of_two(standing: u8, higher: u8, lower: u8) -> Option<u8>
    requires higher_bound { higher < 8 }
    requires lower_bound { lower < 8 }
    ensures { result ≡ first_standing (higher ∷ lower ∷ []) standing }
{
    if word::is_set(higher, standing) {
        Some(higher)
    } else if word::is_set(lower, standing) {
        Some(lower)
    } else {
        None
    }
}

// (A number, as the manual's table has it; two of the eight are unused, and an enum would be made of the number to be matched once: no
// plainer.)
fn group_order(ipr: u8) -> u8
    ensures { (result ≡ group_order ipr) × (result < 8) }
{
    word::bit(4, ipr) * 4 + word::bit(3, ipr) * 2 + word::bit(0, ipr)
}

// The highest request by IPR of those that stand.
#[tactic(auto, using(crate::proofs::Orders::first_of_three, crate::proofs::Orders::unused), unfolding(crate::specs::Grants::priorities, crate::specs::Grants::ordered, crate::specs::Grants::group_a, crate::specs::Grants::group_b, crate::specs::Grants::group_c, crate::specs::Grants::first_standing))]
pub fn highest(standing: u8, ipr: u8) -> Option<u8>
    ensures { result ≡ first_standing (priorities ipr) standing }
{
    let a = of_group(standing, ipr, 5, 5, 3);
    let b = of_group(standing, ipr, 2, 2, 0);
    let c = of_group(standing, ipr, 1, 1, 4);
    match group_order(ipr) {
        1 => c.or(a).or(b),
        2 => a.or(b).or(c),
        3 => a.or(c).or(b),
        4 => b.or(c).or(a),
        5 => c.or(b).or(a),
        6 => b.or(a).or(c),
        _ => None,
    }
}

// The requests that stand: the mask bit is set too, and IMR's bit 7.
#[tactic(auto, unfolding(crate::specs::ForCode::standing_of))]
pub fn standing(irq: u8, imr: u8) -> u8
    ensures { result ≡ standing_of irq imr }
{
    if word::is_set(7, imr) { irq & imr } else { 0 }
}

// What is granted, asked at each step. Mostly nothing stands, which is seen without asking IPR. (No twin of `highest`, which it
// goes on to.)
#[tactic(auto, using(crate::proofs::Orders::granted_standing))]
pub fn granted(irq: u8, imr: u8, ipr: u8) -> Option<u8>
    ensures { result ≡ granted irq imr ipr }
{
    let standing = standing(irq, imr);
    if standing == 0 {
        return None;
    }
    highest(standing, ipr)
}
