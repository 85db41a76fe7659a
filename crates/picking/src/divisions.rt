// Division: the values of an operand that give t, and those that do so with some value of the other. Widths are of at most
// 16 bits, so that no product leaves 32.
ghost use Rattle.std.specs.Prelude.{◌≡◌, ◌-◌, ◌^◌, ◌<◌, ◌≤◌};
ghost use Rattle.operators.specs.Meaning.{quotient};
ghost use Rattle.boxes.specs.inner.Boxes.{Solves, SomeWord};
ghost use Rattle.picking.specs.inner.Asks.{Short, joint};

use crate::basic;
use boxes::{Set, Union};
use operators::ones;

// From t times s on as many as s is.
fn inverse_dividend(w: u32, s: u64, t: u64) -> Set
    requires { Short w t × (s < 2 ^ w) }
    ensures { Solves w (λ v. quotient w v s ≡ t) result }
{
    if s == 0 {
        return basic::all_if(ones(w), t);
    }
    let a = t * s;
    basic::range(a, a + (s - 1))
}

// t times the divisor is at most x, and t + 1 times it is more; 0 is a divisor for all ones.
fn inverse_divisor(w: u32, x: u64, t: u64) -> Set
    requires { Short w t × (x < 2 ^ w) }
    ensures { Solves w (λ v. quotient w x v ≡ t) result }
{
    if t == 0 {
        return basic::above(x);
    }
    if t == ones(w) {
        return basic::range(0, x / t);
    }
    basic::range(x / (t + 1) + 1, x / t)
}

pub(crate) fn inverse_udiv(i: u32, w: u32, s: u64, t: u64) -> Set
    requires { (i < 2) × Short w t × (s < 2 ^ w) }
    ensures { Solves w (λ v. quotient w (joint i v s).a (joint i v s).b ≡ t) result }
{
    if i == 0 {
        return inverse_dividend(w, s, t);
    }
    inverse_divisor(w, s, t)
}

// Everything for all ones, by 0; all but the greatest for 0; else what some divisor takes to t.
fn consistent_dividend(w: u32, t: u64) -> Set
    requires { Short w t }
    ensures { Solves w (λ v. SomeWord w (λ s. quotient w v s ≡ t)) result }
{
    let m = ones(w);
    if t == m {
        return basic::all();
    }
    if t == 0 {
        return basic::below(m);
    }
    Set::Many(Union::Dividends(t, m))
}

// Divisors whose product with t is of w bits; 0 for all ones alone.
fn consistent_divisor(w: u32, t: u64) -> Set
    requires { Short w t }
    ensures { Solves w (λ v. SomeWord w (λ s. quotient w s v ≡ t)) result }
{
    let m = ones(w);
    if t == m {
        return basic::range(0, 1);
    }
    if t == 0 {
        return basic::above(0);
    }
    basic::range(1, m / t)
}

pub(crate) fn consistent_udiv(i: u32, w: u32, t: u64) -> Set
    requires { (i < 2) × Short w t }
    ensures { Solves w (λ v. SomeWord w (λ s. quotient w (joint i v s).a (joint i v s).b ≡ t)) result }
{
    if i == 0 {
        return consistent_dividend(w, t);
    }
    consistent_divisor(w, t)
}
