// The fixed bits of one node (documents 01 and 02), from its operands' pairs.
#![tactic(auto)]

ghost use Rattle.std.specs.Prelude.{◌≡◌, ℕ, ◌/◌, ◌%◌, ◌^◌, ◌≤◌, ◌<◌};
ghost use Rattle.operators.specs.Table.{kind_of};
ghost use Rattle.operators.specs.Meaning.{signed_less};
ghost use Rattle.fixed.specs.Fixed.{pair, either, fixed, any_of, known, lowest, up_to, carries, sum_pair, apart, eq_pair, below_pair, ite_pair, sign_over, slt_pair, sext_pair, udiv_pair, pair_of};
ghost use Rattle.fixed.specs.inner.Pairs.{Ternary, PairsReady};

use operators::{
    KINDS, Op, extend, flip, join, kind, left, less_signed, ones, part, quotient, right,
    right_signed, sum,
};

// A ternary word: lo has no bit that hi lacks, and a bit is fixed where the two agree.
// (No `words::Ternary`: the definitions are of any two words, and most functions here ask nothing of a pair.)
#[derive(Clone, Copy, Debug, PartialEq, Eq)]
pub struct Pair {
    pub lo: u64,
    pub hi: u64,
}

// One bit: fixed at 0, fixed at 1, or free.
const ZERO: Pair = Pair { lo: 0, hi: 0 };

const ONE: Pair = Pair { lo: 1, hi: 1 };

const FREE: Pair = Pair { lo: 0, hi: 1 };

// All w bits free.
fn any_of(w: u32) -> Pair
    requires { w ≤ 64 }
    ensures { result ≡ any_of w }
{
    Pair { lo: 0, hi: ones(w) }
}

// v, with the positions of f free.
fn with_free(v: u64, f: u64) -> Pair
    ensures { result ≡ known v f }
{
    Pair {
        lo: v ^ (v & f),
        hi: v | f,
    }
}

// The lowest position free in either, w if there is none.
// (w, as the definition has it: then all w bits are known.)
fn lowest_free(p: Pair, q: Pair, w: u32) -> u32
    requires { w ≤ 64 }
    ensures { result ≡ lowest w p q }
{
    let k = u64::trailing_zeros((p.lo ^ p.hi) | (q.lo ^ q.hi));
    k.min(w)
}

// The k low bits of v, the others of w free.
fn up_to(v: u64, k: u32, w: u32) -> Pair
    requires { (k ≤ w) × (w ≤ 64) }
    ensures { result ≡ up_to w k v }
{
    let low = words::cut(v, k);
    let above = ones(w) - ones(k);
    Pair {
        lo: low,
        hi: low + above,
    }
}

// mul: the bits of v below the lowest free position, the others of w free.
fn low_pair(v: u64, p: Pair, q: Pair, w: u32) -> Pair
    requires { w ≤ 64 }
    ensures { result ≡ up_to w (lowest w p q) v }
{
    up_to(v, lowest_free(p, q, w), w)
}

// The places that a sum of w bits carries into.
fn carried(a: u64, b: u64, w: u32) -> u64
    requires { (1 ≤ w) × (w ≤ 64) }
    ensures { result ≡ carries w a b }
{
    sum(a, b, w) ^ (a ^ b)
}

// add: free where either is, and where the least and the greatest sum carry differently.
fn sum_pair(p: Pair, q: Pair, w: u32) -> Pair
    requires { (1 ≤ w) × (w ≤ 64) }
    ensures { result ≡ sum_pair w p q }
{
    let free = (p.lo ^ p.hi) | (q.lo ^ q.hi);
    let unlike = carried(p.lo, q.lo, w) ^ carried(p.hi, q.hi, w);
    with_free(sum(p.lo, q.lo, w), free | unlike)
}

// xor: free where either is.
fn xor_pair(p: Pair, q: Pair) -> Pair
    ensures { result ≡ apart p q }
{
    with_free(p.lo ^ q.lo, (p.lo ^ p.hi) | (q.lo ^ q.hi))
}

// eq, from the xor: a bit fixed at 1 there differs, and all fixed at 0 is equal.
fn eq_pair(p: Pair, q: Pair) -> Pair
    ensures { result ≡ eq_pair p q }
{
    let x = xor_pair(p, q);
    if 0 < x.lo {
        return ZERO;
    }
    if x.hi == 0 {
        return ONE;
    }
    FREE
}

// below: 1 if a's hi is below b's lo, 0 if a's lo is at least b's hi, else free.
fn below_pair(p: Pair, q: Pair) -> Pair
    ensures { result ≡ below_pair p q }
{
    if p.hi < q.lo {
        return ONE;
    }
    if q.hi <= p.lo {
        return ZERO;
    }
    FREE
}

// shl, lshr, ashr: with a fixed amount both ends of the pair are shifted by it, else all is free.
fn shifted_by<F: Fn(u64, u64) -> u64>(p: Pair, q: Pair, w: u32, shift: F) -> Pair
    ghost by: { ℕ → ℕ → ℕ }
    requires wide { w ≤ 64 }
    requires low { F.pre shift p.lo q.lo }
    requires high { F.pre shift p.hi q.lo }
    requires shifts { (v s r : _) → F.post shift v s r → r ≡ by v s }
    ensures { result ≡ either (fixed q) (pair (by p.lo q.lo) (by p.hi q.lo)) (any_of w) }
{
    let s = q.lo;
    if s == q.hi {
        Pair {
            lo: shift(p.lo, s),
            hi: shift(p.hi, s),
        }
    } else {
        any_of(w)
    }
}

// if p then q else r: the chosen branch if p is fixed, else the bits fixed alike in both.
fn if_pair(p: Pair, q: Pair, r: Pair) -> Pair
    ensures { result ≡ ite_pair p q r }
{
    let s = p.lo;
    if s == p.hi {
        return if s == 0 { r } else { q };
    }
    Pair {
        lo: q.lo & r.lo,
        hi: q.hi | r.hi,
    }
}

// extract: the same part of both. (It and sext_pair differ in the step alone; a step as an argument would ask for its clauses at each
// call, which is more to read than these lines.)
fn part_pair(p: Pair, low: u32, w: u32) -> Pair
    requires { (1 ≤ w) × (w ≤ 64) × (low < 64) }
    ensures { result ≡ pair (p.lo / 2 ^ low % 2 ^ w) (p.hi / 2 ^ low % 2 ^ w) }
{
    Pair {
        lo: part(p.lo, low, w),
        hi: part(p.hi, low, w),
    }
}

// The sign of a over the other bits of b: of a pair's hi and lo its signed least value, of its lo and hi its greatest.
pub fn sign_over(a: u64, b: u64, w: u32) -> u64
    requires { (1 ≤ w) × (w ≤ 64) }
    ensures { result ≡ sign_over w a b }
{
    words::set_low(a, w - 1, words::cut(b, w - 1))
}

// Whether the sign of a over the other bits of b is below the sign of c over the other bits of d.
fn less_over(a: u64, b: u64, c: u64, d: u64, w: u32) -> bool
    requires { (1 ≤ w) × (w ≤ 64) × (a < 2 ^ w) × (c < 2 ^ w) }
    ensures { result ≡ signed_less w (sign_over w a b) (sign_over w c d) }
{
    less_signed(sign_over(a, b, w), sign_over(c, d, w), w)
}

// Signed below, of operands of w bits: 1 or 0 where the signed extremes decide it, else free.
fn slt_pair(p: Pair, q: Pair, w: u32) -> Pair
    requires { (1 ≤ w) × (w ≤ 64) × Ternary w p × Ternary w q }
    ensures { result ≡ slt_pair w p q }
{
    if less_over(p.lo, p.hi, q.hi, q.lo, w) {
        return ONE;
    }
    if less_over(p.hi, p.lo, q.lo, q.hi, w) {
        return FREE;
    }
    ZERO
}

// Sign extension from k bits to w.
fn sext_pair(p: Pair, k: u32, w: u32) -> Pair
    requires { (1 ≤ k) × (k ≤ w) × (w ≤ 64) × Ternary k p }
    ensures { result ≡ sext_pair k w p }
{
    Pair {
        lo: extend(p.lo, k, w),
        hi: extend(p.hi, k, w),
    }
}

// Division: the quotient where both sides are fully fixed, else free.
fn udiv_pair(p: Pair, q: Pair, w: u32) -> Pair
    requires { w ≤ 64 }
    ensures { result ≡ udiv_pair w p q }
{
    if p.lo == p.hi && q.lo == q.hi {
        let v = quotient(p.lo, q.lo, w);
        return Pair { lo: v, hi: v };
    }
    any_of(w)
}

// The pair of an inner node, from its operands' pairs.
pub fn pair_of(op: Op, p: Pair, q: Pair, r: Pair) -> Pair
    requires { PairsReady op p q r }
    ensures { result ≡ pair_of (kind_of op.kind) op.width op.wa op.wb op.low p q r }
{
    let w = op.width;
    let j = op.wa;
    let k = op.wb;
    let low = op.low;
    match op.kind {
        kind::NOT => Pair {
            lo: flip(p.hi, w),
            hi: flip(p.lo, w),
        },
        kind::AND => Pair {
            lo: p.lo & q.lo,
            hi: p.hi & q.hi,
        },
        kind::XOR => xor_pair(p, q),
        kind::ADD => sum_pair(p, q, w),
        kind::MUL => low_pair(words::wrapping_mul(p.lo, q.lo), p, q, w),
        kind::SHL => shifted_by(p, q, w, |v, s| left(v, s, w)),
        kind::LSHR => shifted_by(p, q, w, |v, s| right(v, s)),
        kind::EQ => eq_pair(p, q),
        kind::BELOW => below_pair(p, q),
        kind::IF => if_pair(p, q, r),
        kind::CONCAT => Pair {
            lo: join(p.lo, q.lo, k),
            hi: join(p.hi, q.hi, k),
        },
        kind::EXTRACT => part_pair(p, low, w),
        kind::SLT => slt_pair(p, q, j),
        kind::ASHR => shifted_by(p, q, w, |v, s| right_signed(v, s, w)),
        kind::SEXT => sext_pair(p, j, w),
        kind::UDIV => udiv_pair(p, q, w),
        kind::VARIABLE..=kind::CONSTANT | KINDS..=u8::MAX => ZERO,
    }
}
