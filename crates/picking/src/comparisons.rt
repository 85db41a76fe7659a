// Eq and below: the values of an operand that give t, and those that do so with some value of the other that
// agrees with its pair.
ghost use Rattle.std.specs.Prelude.{◌≡◌, ◌<◌, ◌==◌, nat_lt};
ghost use Rattle.operators.specs.Meaning.{flag};
ghost use Rattle.boxes.specs.inner.Boxes.{Solves, SomeAgreeing};
ghost use Rattle.picking.specs.inner.Asks.{joint};

use crate::basic;
use boxes::Set;
use words::Ternary;

pub(crate) fn inverse_eq(s: u64, t: u64) -> Set
    requires { t < 2 }
    ensures { Solves 64 (λ v. flag (v == s) ≡ t) result }
{
    if t == 1 {
        return basic::only(s);
    }
    basic::apart(s)
}

pub(crate) fn inverse_below(i: u32, s: u64, t: u64) -> Set
    requires { (i < 2) × (t < 2) }
    ensures { Solves 64 (λ v. flag (nat_lt (joint i v s).a (joint i v s).b) ≡ t) result }
{
    if t == 1 {
        if i == 0 {
            return basic::below(s);
        }
        return basic::above(s);
    }
    if i == 0 {
        return basic::range(s, u64::MAX);
    }
    basic::range(0, s)
}

// For target 1 what the other may be, for target 0 all but the one value that it has to be, if there is one.
pub(crate) fn consistent_eq(pair: Ternary, t: u64) -> Set
    requires { t < 2 }
    ensures { Solves 64 (λ v. SomeAgreeing pair.lo pair.hi (λ s. flag (v == s) ≡ t)) result }
{
    if t == 1 {
        return basic::agreeing(pair.lo, pair.hi);
    }
    if pair.lo == pair.hi {
        return basic::apart(pair.lo);
    }
    basic::all()
}

// The other's greatest value serves best where v has to be below it or at most it, else its least.
pub(crate) fn consistent_below(i: u32, pair: Ternary, t: u64) -> Set
    requires { (i < 2) × (t < 2) }
    ensures { Solves 64 (λ v. SomeAgreeing pair.lo pair.hi (λ s. flag (nat_lt (joint i v s).a (joint i v s).b) ≡ t)) result }
{
    if u64::from(i) == t {
        return inverse_below(i, pair.lo, t);
    }
    inverse_below(i, pair.hi, t)
}
