// Shl and lshr: the values of the operand or of the amount that give t, and those that do so with some value of the other.
ghost use Rattle.std.specs.Prelude.{◌≡◌, ◌*◌, ◌/◌, ◌%◌, ◌^◌, ◌<◌};
ghost use Rattle.boxes.specs.inner.Boxes.{Solves, SomeWord};
ghost use Rattle.picking.specs.inner.Asks.{Sized, joint};

use crate::basic;
use boxes::{Row, Set, Union, shifted};

// ---- shl, modulo 2^w

// A shift by s < w: the s low bits of t are clear, and the rest of t is what stood below the bits that are lost.
fn inverse_shl_operand(w: u32, s: u64, t: u64) -> Set
    requires { Sized w t }
    ensures { Solves w (λ v. v * 2 ^ s % 2 ^ w ≡ t) result }
{
    if s >= u64::from(w) {
        return basic::all_if(0, t);
    }
    let k = s as u32;
    if words::cut(t, k) != 0 {
        return Set::Empty;
    }
    basic::ending(w - k, t >> k)
}

// For t = 0 all of x's set bits are to go; for another t the amount is what t has more zeros at its end than x.
fn inverse_shl_amount(w: u32, x: u64, t: u64) -> Set
    requires { Sized w t × (x < 2 ^ w) }
    ensures { Solves w (λ v. x * 2 ^ v % 2 ^ w ≡ t) result }
{
    if x == 0 {
        return basic::all_if(0, t);
    }
    let i = words::low_bit(x);
    if t == 0 {
        return basic::range(u64::from(w - i), u64::MAX);
    }
    let j = words::low_bit(t);
    if j < i {
        return Set::Empty;
    }
    let k = j - i;
    basic::only_if(u64::from(k), words::cut(x << k, w), t)
}

pub(crate) fn inverse_shl(i: u32, w: u32, s: u64, t: u64) -> Set
    requires { (i < 2) × Sized w t × (s < 2 ^ w) }
    ensures { Solves w (λ v. (joint i v s).a * 2 ^ (joint i v s).b % 2 ^ w ≡ t) result }
{
    if i == 0 {
        return inverse_shl_operand(w, s, t);
    }
    inverse_shl_amount(w, s, t)
}

// A shift is by no more than t has zeros at its end.
pub(crate) fn consistent_shl(i: u32, w: u32, t: u64) -> Set
    requires { (i < 2) × Sized w t }
    ensures { Solves w (λ v. SomeWord w (λ s. (joint i v s).a * 2 ^ (joint i v s).b % 2 ^ w ≡ t)) result }
{
    if t == 0 {
        return basic::all();
    }
    let n = words::low_bit(t);
    if i == 0 {
        return Set::Many(Union::Several(Row::Left(t, w), n + 1));
    }
    basic::range(0, u64::from(n))
}

// ---- lshr

// A shift by s < 64: t with any s bits below.
fn inverse_lshr_operand(s: u64, t: u64) -> Set
    ensures { Solves 64 (λ v. v / 2 ^ s ≡ t) result }
{
    if s >= 64 {
        return basic::all_if(0, t);
    }
    let k = s as u32;
    if u64::MAX >> k < t {
        return Set::Empty;
    }
    Set::One(shifted(t, k))
}

// For t = 0 all of x's bits are to go; for another t the amount is what x's highest bit is above t's.
pub(crate) fn inverse_lshr_amount(x: u64, t: u64) -> Set
    ensures { Solves 64 (λ v. x / 2 ^ v ≡ t) result }
{
    if x == 0 {
        return basic::all_if(0, t);
    }
    let i = words::top_bit(x);
    if t == 0 {
        return basic::range(u64::from(i + 1), u64::MAX);
    }
    let j = words::top_bit(t);
    if i < j {
        return Set::Empty;
    }
    let k = i - j;
    basic::only_if(u64::from(k), x >> k, t)
}

pub(crate) fn inverse_lshr(i: u32, s: u64, t: u64) -> Set
    requires { i < 2 }
    ensures { Solves 64 (λ v. (joint i v s).a / 2 ^ (joint i v s).b ≡ t) result }
{
    if i == 0 {
        return inverse_lshr_operand(s, t);
    }
    inverse_lshr_amount(s, t)
}

// A shift is by no more than t has zeros at its top.
pub(crate) fn consistent_lshr(i: u32, w: u32, t: u64) -> Set
    requires { (i < 2) × Sized w t }
    ensures { Solves w (λ v. SomeWord w (λ s. (joint i v s).a / 2 ^ (joint i v s).b ≡ t)) result }
{
    if t == 0 {
        return basic::all();
    }
    let n = w - words::top_bit(t);
    if i == 0 {
        return Set::Many(Union::Several(Row::Right(t), n));
    }
    basic::range(0, u64::from(n - 1))
}
