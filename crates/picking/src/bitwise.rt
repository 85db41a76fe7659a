// Not, and, xor: the values of an operand that give t, and those that do so with some value of the other
// that agrees with its pair.
ghost use Rattle.std.specs.Prelude.{◌≡◌, ◌-◌, ◌^◌, true, bit_and, bit_xor};
ghost use Rattle.boxes.specs.inner.Boxes.{Solves, SomeAgreeing};
ghost use Rattle.picking.specs.inner.Asks.{Sized};

use crate::basic;
use boxes::Set;
use words::Ternary;

pub(crate) fn inverse_not(w: u32, t: u64) -> Set
    requires { Sized w t }
    ensures { Solves w (λ v. (2 ^ w - 1) - v ≡ t) result }
{
    basic::only(words::cut(!t, w))
}

// A value is a pair that leaves no other.
pub(crate) fn inverse_and(s: u64, t: u64) -> Set
    ensures { Solves 64 (λ v. bit_and v s ≡ t) result }
{
    consistent_and(Ternary { lo: s, hi: s }, t)
}

// Every bit of t has to be one that the other can have; then v has the bits of t and, where the other need not have a bit, any
// others.
pub(crate) fn consistent_and(pair: Ternary, t: u64) -> Set
    ensures { Solves 64 (λ v. SomeAgreeing pair.lo pair.hi (λ s. bit_and v s ≡ t)) result }
{
    if t & pair.hi != t {
        return Set::Empty;
    }
    basic::agreeing(t, t | !pair.lo)
}

// The one value that gives t with s.
pub(crate) fn turned(s: u64, t: u64) -> u64
    ensures { Solves 64 (λ v. bit_xor v s ≡ t) (Set.Only result true) }
{
    t ^ s
}

pub(crate) fn inverse_xor(s: u64, t: u64) -> Set
    ensures { Solves 64 (λ v. bit_xor v s ≡ t) result }
{
    Set::Only(turned(s, t), true)
}

// The xor of t with the other's pair: free where the pair is.
pub(crate) fn consistent_xor(pair: Ternary, t: u64) -> Set
    ensures { Solves 64 (λ v. SomeAgreeing pair.lo pair.hi (λ s. bit_xor v s ≡ t)) result }
{
    let a = t ^ pair.lo;
    let b = t ^ pair.hi;
    basic::agreeing(a & b, a | b)
}
