// Constants of a line: whether they fit their width, and their values.
ghost use Rattle.std.specs.Prelude.{◌≡◌, true, ◌-◌, ◌^◌, ◌≤◌, ◌<◌};
ghost use Rattle.lines.specs.Words.{shape, word_of};
ghost use Rattle.lines.specs.Format.{is_constant, constant_of};
ghost use Rattle.spelling.specs.Nodes.{constant_value};
ghost use Rattle.spelling.specs.inner.Spelled.{most_of, constant_fits};
ghost use Rattle.spelling.specs.inner.Constants.{Told, Literally};

use lines::{base_of, is_signed, keyword, unsigned_of};
use texts::value_in;

// Whether a line's constant fits, and its value, where it has one. (Two parts, and no Option: `zero`, `one` and `ones` tell a value and have no
// constant that could fit, and `literal_of_determined` speaks of both.)
#[derive(Clone, Copy, Debug, PartialEq, Eq)]
pub struct Literal {
    pub fits: bool,
    pub value: u64,
}

// The greatest number of w bits, where w is at most 64. (Else 0, of which the contract says nothing.)
pub(crate) fn ones(w: u8) -> u64
    ensures { w ≤ 64 → result ≡ 2 ^ w - 1 }
{
    if 64 < w {
        return 0;
    }
    operators::ones(u32::from(w))
}

// The greatest number that fits, by a constant's base and sign.
fn most_of(base: u8, t: &[u8], w: u8) -> u64
    ensures { 1 ≤ w → w ≤ 64 → result ≡ most_of base w t.now }
{
    let most = ones(w);
    if (base == 10) & is_signed(t) {
        return most / 2 + 1;
    }
    most
}

fn constant_fits(base: u8, t: &[u8], w: u8) -> bool
    ensures { 0 < base → 1 ≤ w → w ≤ 64 → result ≡ constant_fits base w t.now }
{
    if base == 2 {
        return t.len() == usize::from(w);
    }
    if base == 0 {
        return true;
    }
    let Some(n) = value_in(unsigned_of(t), base) else {
        return false;
    };
    n <= most_of(base, t, w)
}

// The value of a constant that fits, in two's complement after a minus sign. (Else 0, of which the contract says nothing.)
fn constant_value(base: u8, t: &[u8], w: u8) -> u64
    ensures { 0 < base → 1 ≤ w → w ≤ 64 → constant_fits base w t.now ≡ true → is_constant base t.now ≡ true → result ≡ constant_value w (constant_of base t.now) }
{
    if base == 0 {
        return 0;
    }
    let Some(n) = value_in(unsigned_of(t), base) else {
        return 0;
    };
    if !is_signed(t) {
        return n;
    }
    let most = ones(w);
    if (n == 0) | (most < n) {
        return 0;
    }
    most - n + 1
}

// The value that a keyword tells: that of zero, one and ones, or its constant's.
fn value_of(word: u8, t: &[u8], w: u8) -> u64
    ensures { Told word w t.now result }
{
    match word {
        keyword::ZERO => 0,
        keyword::ONE => 1,
        keyword::ONES => ones(w),
        _ => constant_value(base_of(word), t, w),
    }
}

pub fn literal_of(word: u8, t: &[u8], w: u8) -> Literal
    ensures { Literally word w t.now result }
{
    Literal {
        fits: constant_fits(base_of(word), t, w),
        value: value_of(word, t, w),
    }
}
