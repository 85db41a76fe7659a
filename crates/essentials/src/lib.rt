// Whether a position of one node taken out of a problem is essential: no values of the others that agree give t while it keeps its
// current value.
#![tactic(auto)]

ghost use Rattle.std.specs.Prelude.{◌≡◌, ◌-◌, ◌^◌, ◌≤◌, ◌<◌};
ghost use Rattle.words.specs.inner.Decides.{Decides};
ghost use Rattle.picking.specs.Spot.{at as standing, positions, value, Fair, Essential, Asked};
ghost use Rattle.picking.specs.inner.Asks.{Had};
ghost use Rattle.essentials.specs.inner.Marks.{Marks, mark};
ghost use Rattle.essentials.specs.inner.Asks.{Alone};

use operators::{KINDS, kind};
use picking::{Spot, at, branch, some_inverse};

// What a kind of one position gives on its current value. (By `if`: there are three, and a `match` would want an arm for the rest.)
fn value_now(s: Spot) -> u64
    requires { Fair s × Alone s.kind }
    ensures { result ≡ value s s.current }
{
    let a = s.current.a;
    if s.kind == kind::NOT {
        operators::flip(a, s.width)
    } else if s.kind == kind::EXTRACT {
        operators::part(a, s.low, s.width)
    } else {
        operators::extend(a, s.widths.a as u32, s.width)
    }
}

// The one position of not, extract and sign extension is essential exactly if its current value does not give t.
fn essential_alone(s: Spot, t: u64) -> bool
    requires { Fair s × Alone s.kind }
    ensures { Decides (Essential s t 0) result }
{
    value_now(s) != t
}

// Of two positions one is essential exactly if the other has no inverse value: none that agrees with its pair.
fn essential_of_two(s: Spot, i: u32, t: u64) -> bool
    requires { Asked s i t × (positions s ≡ 2) }
    ensures { Decides (Essential s t i) result }
{
    some_inverse(s, 1 - i, t).is_none()
}

// Whether t can be had from an `if` whose branch i keeps its value: with that one taken, where the condition is 2 - i, or with the
// other one, 3 - i, and a value of it that agrees.
fn had(s: Spot, i: u32, t: u64) -> bool
    requires { (1 ≤ i) × (i < 3) }
    ensures { Decides (Had s.los.a s.his.a (2 - i) (standing s.current i) (standing s.los (3 - i)) (standing s.his (3 - i)) t) result }
{
    let way = u64::from(2 - i);
    let l = at(s.los, 3 - i);
    let h = at(s.his, 3 - i);
    (words::agrees(way, s.los.a, s.his.a) & (at(s.current, i) == t))
        | (words::agrees(1 - way, s.los.a, s.his.a) & words::agrees(t, l, h))
}

// The condition is essential exactly if t does not agree with the branch that it takes now.
// (That it is an `if` is a short clause, here and below: a type for it would be made for this one call.)
fn essential_condition(s: Spot, t: u64) -> bool
    requires { Fair s × (s.kind ≡ 11) }
    ensures { Decides (Essential s t 0) result }
{
    let j = branch(s.current.a);
    !words::agrees(t, at(s.los, j), at(s.his, j))
}

// A branch is essential exactly if t cannot be had while it keeps its value.
fn essential_branch(s: Spot, i: u32, t: u64) -> bool
    requires { Fair s × (s.kind ≡ 11) × (1 ≤ i) × (i < 3) }
    ensures { Decides (Essential s t i) result }
{
    !had(s, i, t)
}

fn essential_of_if(s: Spot, i: u32, t: u64) -> bool
    requires { Fair s × (s.kind ≡ 11) × (i < 3) }
    ensures { Decides (Essential s t i) result }
{
    if i == 0 {
        essential_condition(s, t)
    } else {
        essential_branch(s, i, t)
    }
}

pub fn essential(s: Spot, i: u32, t: u64) -> bool
    requires { Asked s i t }
    ensures { Decides (Essential s t i) result }
{
    match s.kind {
        kind::NOT | kind::EXTRACT | kind::SEXT => essential_alone(s, t),
        kind::IF => essential_of_if(s, i, t),
        kind::AND..=kind::BELOW | kind::CONCAT | kind::SLT..=kind::ASHR | kind::UDIV =>
            essential_of_two(s, i, t),
        kind::VARIABLE..=kind::CONSTANT | KINDS..=u8::MAX => false,
    }
}

// Positions as the bits of a number: a bit is set where the answer for its position is yes.
pub fn marks(a: bool, b: bool, c: bool) -> u32
    ensures { result ≡ mark a b c }
{
    u32::from(a) + 2 * u32::from(b) + 4 * u32::from(c)
}

// The essential positions, each a bit. What the kind is, is asked once.
pub fn essential_positions(s: Spot, t: u64) -> u32
    requires { Fair s × (t < 2 ^ s.width) }
    ensures { Marks (Essential s t) (positions s) result }
{
    match s.kind {
        kind::NOT | kind::EXTRACT | kind::SEXT => marks(essential_alone(s, t), false, false),
        kind::IF => marks(
            essential_condition(s, t),
            essential_branch(s, 1, t),
            essential_branch(s, 2, t),
        ),
        kind::AND..=kind::BELOW | kind::CONCAT | kind::SLT..=kind::ASHR | kind::UDIV => marks(
            essential_of_two(s, 0, t),
            essential_of_two(s, 1, t),
            false,
        ),
        kind::VARIABLE..=kind::CONSTANT | KINDS..=u8::MAX => 0,
    }
}
