// The picks from the inverse and the consistent set of a node's position, with a proposal, and some inverse value without one.
ghost use Rattle.std.specs.Prelude.{◌≡◌, ◌%◌, ◌^◌, ◌<◌};
ghost use Rattle.words.specs.Pick.{Picked};
ghost use Rattle.picking.specs.Spot.{at as standing, positions, Fair, Inverse, Consistent, Asked};
ghost use Rattle.boxes.specs.inner.Boxes.{Solves};
ghost use Rattle.picking.specs.inner.Asks.{Meets, Wanted};

use crate::arithmetic::difference;
use crate::bitwise::turned;
use crate::sets::{consistent_set, inverse_set};
use crate::spot::{Spot, at, other};
use boxes::{Set, pick_in, pick_only};
use operators::kind;
use words::Ternary;

// The values that are asked for: with the others at their current values, or with some values of the others.
#[derive(Clone, Copy, Debug, PartialEq, Eq)]
pub(crate) enum Values {
    Inverse,
    Consistent,
}

// The proposal, taken modulo 2 to the operand's width.
fn proposed(s: Spot, i: u32, p: u64) -> u64
    requires { Fair s × (i < positions s) }
    ensures { result ≡ p % 2 ^ standing s.widths i }
{
    words::cut(p, at(s.widths, i) as u32)
}

// The inverse or the consistent set, without the operand's pair. (Two returns: as one `if` with two values it costs 1 to 2 % of a run.)
fn set_of(s: Spot, i: u32, t: u64, values: Values) -> Set
    requires { Asked s i t }
    ensures { Solves (standing s.widths i) (Meets values s t i) result }
{
    if let Values::Inverse = values {
        return inverse_set(s, i, t);
    }
    consistent_set(s, i, t)
}

// The pick from the inverse or the consistent set. One function for both, so that each set is picked from where it is made:
// that the pair is read before is part of it.
fn pick(s: Spot, i: u32, t: u64, p: u64, values: Values) -> Option<u64>
    requires { Asked s i t }
    ensures { Picked (Wanted values s t i) p result }
{
    let pair = Ternary {
        lo: at(s.los, i),
        hi: at(s.his, i),
    };
    pick_in(set_of(s, i, t, values), pair, p)
}

pub fn pick_inverse(s: Spot, i: u32, t: u64, p: u64) -> Option<u64>
    requires { Asked s i t }
    ensures { Picked (Inverse s t i) (p % 2 ^ standing s.widths i) result }
{
    pick(s, i, t, proposed(s, i, p), Values::Inverse)
}

pub fn pick_consistent(s: Spot, i: u32, t: u64, p: u64) -> Option<u64>
    requires { Asked s i t }
    ensures { Picked (Consistent s t i) (p % 2 ^ standing s.widths i) result }
{
    pick(s, i, t, proposed(s, i, p), Values::Consistent)
}

// An inverse value, if there is one. Of xor and add there is one value to ask for, and no set to be made.
pub fn some_inverse(s: Spot, i: u32, t: u64) -> Option<u64>
    requires { Asked s i t }
    ensures { Picked (Inverse s t i) 0 result }
{
    let y = other(s.current, i);
    match s.kind {
        kind::XOR => pick_only(turned(y, t), true, at(s.los, i), at(s.his, i)),
        kind::ADD => pick_only(difference(s.width, y, t), true, at(s.los, i), at(s.his, i)),
        kind::VARIABLE..=kind::AND | kind::MUL..=u8::MAX => pick(s, i, t, 0, Values::Inverse),
    }
}
