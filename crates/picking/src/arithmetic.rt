// Add and mul: the values of an operand that give t, and those that do so with some value of the other.
ghost use Rattle.std.specs.Prelude.{◌≡◌, ◌+◌, ◌*◌, ◌%◌, ◌^◌, ◌<◌, true};
ghost use Rattle.boxes.specs.inner.Boxes.{Solves, SomeWord};
ghost use Rattle.picking.specs.inner.Asks.{Sized};

use crate::basic;
use boxes::{Set, Union};

// The one value that gives t with s.
pub(crate) fn difference(w: u32, s: u64, t: u64) -> u64
    requires { Sized w t }
    ensures { Solves w (λ v. (v + s) % 2 ^ w ≡ t) (Set.Only result true) }
{
    words::cut(t.wrapping_sub(s), w)
}

pub(crate) fn inverse_add(w: u32, s: u64, t: u64) -> Set
    requires { Sized w t }
    ensures { Solves w (λ v. (v + s) % 2 ^ w ≡ t) result }
{
    Set::Only(difference(w, s, t), true)
}

// s is 2^k times an odd number: 2^k has to divide t, and then the w - k low bits are those of t / 2^k times the odd
// number's inverse, and the others are free.
#[tactic(auto, using(crate::proofs::ArithmeticLaws::mul_nothing))]
pub(crate) fn inverse_mul(w: u32, s: u64, t: u64) -> Set
    requires { Sized w t × (s < 2 ^ w) }
    ensures { Solves w (λ v. v * s % 2 ^ w ≡ t) result }
{
    if s == 0 {
        return basic::all_if(0, t);
    }
    let k = words::low_bit(s);
    if words::cut(t, k) != 0 {
        return Set::Empty;
    }
    let x = words::wrapping_mul(t >> k, words::odd_inverse(s >> k));
    basic::ending(w - k, words::cut(x, w - k))
}

// A factor of t has a set bit no higher than t's lowest.
pub(crate) fn consistent_mul(w: u32, t: u64) -> Set
    requires { Sized w t }
    ensures { Solves w (λ v. SomeWord w (λ s. v * s % 2 ^ w ≡ t)) result }
{
    if t == 0 {
        return basic::all();
    }
    Set::Many(Union::Low(words::low_bit(t) + 1))
}
