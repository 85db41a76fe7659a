// Ternary words lo, hi: whether a value agrees with one, and the least value from a proposal on that does.
ghost use Rattle.std.specs.Prelude.{◌≡◌, ◌^◌, ◌<◌, ◌↔◌, IsSome, IfSome};
ghost use Rattle.words.specs.Agree.{Within, Agrees};
ghost use Rattle.words.specs.inner.Decides.{Decides};
ghost use Rattle.words.specs.inner.Words.{raised};
ghost use Rattle.words.specs.Pick.{FirstFrom, Pick};

use crate::bits::{and_not, low_bit, low_bits, top_bit};

// A ternary word: a pair with no bit set in lo and clear in hi.
#[derive(Clone, Copy, Debug, PartialEq, Eq)]
pub struct Ternary {
    pub lo: u64,
    pub hi: u64,
    ghost within: { Within lo hi },
}

impl Ternary {
    // The ternary word of any two words, where they make one. (lo and hi apart: this is where they come together.)
    pub fn new(lo: u64, hi: u64) -> Option<Ternary>
        ensures found { IsSome result ↔ Within lo hi }
        ensures is { IfSome result (λ word. (word.lo ≡ lo) × (word.hi ≡ hi)) }
    {
        if lo & hi == lo {
            Some(Ternary { lo, hi })
        } else {
            None
        }
    }
}

// Whether v agrees with lo, hi.
// (Two words and no `Ternary`: it asks nothing of them.)
pub fn agrees(v: u64, lo: u64, hi: u64) -> bool
    ensures { Decides (Agrees lo hi v) result }
{
    lo & v == lo && v & hi == v
}

// p's bits from i on, one higher, and lo's below.
fn raise(lo: u64, p: u64, i: u32) -> u64
    requires { (i < 64) × (raised lo p i < 2 ^ 64) }
    ensures { result ≡ raised lo p i }
{
    (((p >> i) + 1) << i) + low_bits(lo, i)
}

// The least value at or above p that agrees with a ternary word. From the highest bit j where p does not
// agree on, the lowest bit i that is free to rise from 0 to 1 is set, and lo stands below it.
pub fn first_agreeing(word: Ternary, p: u64) -> Option<u64>
    ensures { FirstFrom (Agrees word.lo word.hi) p result }
{
    let Ternary { lo, hi } = word;
    let clash = and_not(lo, p) | and_not(p, hi);
    if clash == 0 {
        return Some(p);
    }
    let j = top_bit(clash);
    let room = and_not(hi >> j, p >> j);
    if room == 0 {
        return None;
    }
    let i = j + low_bit(room);
    Some(raise(lo, p, i))
}

// The pick among the values that agree with a ternary word: the least from p on, else the least of all, which is lo.
pub fn pick_agreeing(word: Ternary, p: u64) -> u64
    ensures { Pick (Agrees word.lo word.hi) p result }
{
    first_agreeing(word, p).unwrap_or(word.lo)
}
