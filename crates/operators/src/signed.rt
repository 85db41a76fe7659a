// Signed words (02, R-1): the order, the arithmetic shift and sign extension, in word operations.
ghost use Rattle.std.specs.Prelude.{◌≡◌, ◌-◌, ◌^◌, ◌<◌, ◌≤◌};
ghost use Rattle.operators.specs.Meaning.{flag, signed_less, signed_shift, extended};
ghost use Rattle.operators.specs.laws.Signed.{turned};

use crate::meaning::{flip, ones, right};

// The least word of w bits whose sign is set.
pub fn half(w: u32) -> u64
    requires { (1 ≤ w) × (w ≤ 64) }
    ensures { result ≡ 2 ^ (w - 1) }
{
    1u64 << (w - 1)
}

// a with its sign turned over: the signed order is the order of these.
fn turn(a: u64, w: u32) -> u64
    requires { (1 ≤ w) × (w ≤ 64) }
    ensures { result ≡ turned w a }
{
    words::to_width(a.wrapping_add(half(w)), w)
}

// Whether a is below b as signed words.
pub fn less_signed(a: u64, b: u64, w: u32) -> bool
    requires { (1 ≤ w) × (w ≤ 64) × (a < 2 ^ w) × (b < 2 ^ w) }
    ensures { result ≡ signed_less w a b }
{
    turn(a, w) < turn(b, w)
}

// The same as a bit.
pub fn below_signed(a: u64, b: u64, w: u32) -> u64
    requires { (1 ≤ w) × (w ≤ 64) × (a < 2 ^ w) × (b < 2 ^ w) }
    ensures { result ≡ flag (signed_less w a b) }
{
    u64::from(less_signed(a, b, w))
}

// a shifted right by any amount, its sign filling.
pub fn right_signed(a: u64, b: u64, w: u32) -> u64
    requires { (1 ≤ w) × (w ≤ 64) × (a < 2 ^ w) }
    ensures { result ≡ signed_shift w a b }
{
    if a < half(w) {
        return right(a, b);
    }
    flip(right(flip(a, w), b), w)
}

// a of k bits extended to w bits by its sign.
pub fn extend(a: u64, k: u32, w: u32) -> u64
    requires { (1 ≤ k) × (k ≤ w) × (w ≤ 64) × (a < 2 ^ k) }
    ensures { result ≡ extended k w a }
{
    if a < half(k) {
        return a;
    }
    a + (ones(w) - ones(k))
}
