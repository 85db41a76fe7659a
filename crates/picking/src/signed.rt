// Signed words: the values of an operand of a signed comparison, an arithmetic shift or a sign extension that give t, and
// those that do so with some value of the other.
ghost use Rattle.std.specs.Prelude.{◌≡◌, ◌-◌, ◌^◌, ◌<◌, ◌≤◌, min, ◌≢◌};
ghost use Rattle.operators.specs.Meaning.{flag, signed_less, signed_shift, extended};
ghost use Rattle.operators.specs.laws.Signed.{turned};
ghost use Rattle.boxes.specs.inner.Boxes.{Solves, SomeWord, SomeAgreeing};
ghost use Rattle.picking.specs.inner.Asks.{Word, Folded, joint};

use crate::basic;
use crate::shifts::inverse_lshr_amount;
use boxes::{Row, Set, Union, mirror, shifted};
use words::Ternary;

// ---- below, in the signed order: that of the words with their signs turned over

// The values from s on.
fn from(w: u32, s: u64) -> Set
    requires { Word w s }
    ensures { Solves w (λ v. turned w s ≤ turned w v) result }
{
    let h = operators::half(w);
    if s < h {
        return basic::range(s, h - 1);
    }
    basic::ends(h - 1, s)
}

// The values up to s.
fn up_to(w: u32, s: u64) -> Set
    requires { Word w s }
    ensures { Solves w (λ v. turned w v ≤ turned w s) result }
{
    let h = operators::half(w);
    if s < h {
        return basic::ends(s, h);
    }
    basic::range(h, s)
}

// The values below s.
fn below(w: u32, s: u64) -> Set
    requires { Word w s }
    ensures { Solves w (λ v. turned w v < turned w s) result }
{
    let h = operators::half(w);
    if s >= h {
        return basic::range(h, s - 1);
    }
    if s == 0 {
        return basic::range(h, u64::MAX);
    }
    basic::ends(s - 1, h)
}

// The values above s.
fn above(w: u32, s: u64) -> Set
    requires { Word w s }
    ensures { Solves w (λ v. turned w s < turned w v) result }
{
    let h = operators::half(w);
    if s < h {
        return basic::range(s + 1, h - 1);
    }
    if s == u64::MAX {
        return basic::range(0, h - 1);
    }
    basic::ends(h - 1, s + 1)
}

pub(crate) fn inverse_slt(i: u32, w: u32, s: u64, t: u64) -> Set
    requires { (i < 2) × Word w s × (t < 2) }
    ensures { Solves w (λ v. flag (signed_less w (joint i v s).a (joint i v s).b) ≡ t) result }
{
    if t == 1 {
        if i == 0 {
            return below(w, s);
        }
        return above(w, s);
    }
    if i == 0 {
        return from(w, s);
    }
    up_to(w, s)
}

// The other's greatest value serves best where v has to be below it or at most it, else its least. The sign of the least is that of
// hi, of the greatest that of lo.
pub(crate) fn consistent_slt(i: u32, w: u32, pair: Ternary, t: u64) -> Set
    requires { (i < 2) × Word w pair.hi × (t < 2) }
    ensures { Solves w (λ v. SomeAgreeing pair.lo pair.hi (λ s. flag (signed_less w (joint i v s).a (joint i v s).b) ≡ t)) result }
{
    if u64::from(i) == t {
        return inverse_slt(i, w, fixed::sign_over(pair.hi, pair.lo, w), t);
    }
    inverse_slt(i, w, fixed::sign_over(pair.lo, pair.hi, w), t)
}

// ---- arithmetic shift: the sign stays, so a target with its sign set goes by complements

// t, or where its sign is set its complement.
fn fold(w: u32, t: u64) -> u64
    requires { Word w t }
    ensures { Folded w t result }
{
    if t < operators::half(w) {
        return t;
    }
    operators::flip(t, w)
}

// The lesser of an amount and n.
fn at_most(s: u64, n: u32) -> u32
    ensures { result ≡ min s n }
{
    s.min(u64::from(n)) as u32
}

// A shift by w - 1 or more leaves the sign alone; by less, t and any bits below, or the complements of those.
fn inverse_ashr_operand(w: u32, s: u64, t: u64) -> Set
    requires { Word w t }
    ensures { Solves w (λ v. signed_shift w v s ≡ t) result }
{
    let k = at_most(s, w - 1);
    let u = fold(w, t);
    if u >> (w - 1 - k) != 0 {
        return Set::Empty;
    }
    let b = shifted(u, k);
    if u == t {
        return Set::One(b);
    }
    Set::One(mirror(b, w))
}

// Of operand and target with the same sign the amount of lshr, of the complements where it is set.
fn inverse_ashr_amount(w: u32, x: u64, t: u64) -> Set
    requires { Word w x × (t < 2 ^ w) }
    ensures { Solves w (λ v. signed_shift w x v ≡ t) result }
{
    let h = operators::half(w);
    if x < h {
        if t < h {
            return inverse_lshr_amount(x, t);
        }
        return Set::Empty;
    }
    if t < h {
        return Set::Empty;
    }
    inverse_lshr_amount(operators::flip(x, w), operators::flip(t, w))
}

pub(crate) fn inverse_ashr(i: u32, w: u32, s: u64, t: u64) -> Set
    requires { (i < 2) × Word w s × (t < 2 ^ w) }
    ensures { Solves w (λ v. signed_shift w (joint i v s).a (joint i v s).b ≡ t) result }
{
    if i == 0 {
        return inverse_ashr_operand(w, s, t);
    }
    inverse_ashr_amount(w, s, t)
}

// Where t has nothing but its sign: all of the same sign.
fn all_signed(w: u32, t: u64) -> Set
    requires { Word w t × ((t ≢ 0) → t ≡ 2 ^ w - 1) }
    ensures { Solves w (λ v. SomeWord w (λ s. signed_shift w v s ≡ t)) result }
{
    let h = operators::half(w);
    if t == 0 {
        return basic::range(0, h - 1);
    }
    basic::range(h, u64::MAX)
}

// All of t's sign, if nothing but the sign is left; else what shifts take to t that keep its highest bit below the sign.
fn consistent_ashr_operand(w: u32, t: u64) -> Set
    requires { Word w t }
    ensures { Solves w (λ v. SomeWord w (λ s. signed_shift w v s ≡ t)) result }
{
    let u = fold(w, t);
    if u == 0 {
        return all_signed(w, t);
    }
    let n = w - 1 - words::top_bit(u);
    if u == t {
        return Set::Many(Union::Several(Row::Right(u), n));
    }
    Set::Many(Union::Several(Row::Mirrored(u, w), n))
}

fn consistent_ashr_amount(w: u32, t: u64) -> Set
    requires { Word w t }
    ensures { Solves w (λ v. SomeWord w (λ s. signed_shift w s v ≡ t)) result }
{
    let u = fold(w, t);
    if u == 0 {
        return basic::all();
    }
    basic::range(0, u64::from(w - 1 - words::top_bit(u) - 1))
}

pub(crate) fn consistent_ashr(i: u32, w: u32, t: u64) -> Set
    requires { (i < 2) × Word w t }
    ensures { Solves w (λ v. SomeWord w (λ s. signed_shift w (joint i v s).a (joint i v s).b ≡ t)) result }
{
    if i == 0 {
        return consistent_ashr_operand(w, t);
    }
    consistent_ashr_amount(w, t)
}

// ---- sign extension

// The k low bits of t, where the sign of them makes the rest.
pub(crate) fn inverse_sext(k: u32, w: u32, t: u64) -> Set
    requires { (1 ≤ k) × (k ≤ w) × (w ≤ 64) × (t < 2 ^ w) }
    ensures { Solves k (λ v. extended k w v ≡ t) result }
{
    let c = words::to_width(t, k);
    basic::only_if(c, operators::extend(c, k, w), t)
}
