// Boxes and sets of words, and the pick from one. A contract here settles which box is made, or which value is picked; how a set
// is cut into boxes is for those who make it.
#![tactic(auto)]

ghost use Rattle.std.specs.Prelude.{◌≡◌, ℕ, ◌+◌, ◌*◌, ◌^◌, ◌≤◌, ◌<◌};
ghost use Rattle.words.specs.Pick.{FirstFrom, Picked};
ghost use Rattle.boxes.specs.inner.Boxes.{In, Fine, span, word, low_are, shifted_to, mirrored, Bounded, end_at, met, Chosen};

mod unions;

use unions::pick_in_union;
pub use unions::{Row, Union};
use words::Ternary;

// A ternary word met with an interval: the values that agree with lo, hi and lie in least..=most.
// (lo and hi are no `Ternary`: after a meeting they may be a pair that nothing agrees with.)
#[derive(Clone, Copy, Debug, PartialEq, Eq)]
pub struct Box {
    pub lo: u64,
    pub hi: u64,
    pub least: u64,
    pub most: u64,
}

// A set of words: none, a box, several boxes, or a single word if it is there, which is asked together with whether it
// agrees: the word and whether it is there stand together, as the contract of `pick_only` names them.
#[derive(Clone, Copy, Debug, PartialEq, Eq)]
pub enum Set {
    Empty,
    Only(u64, bool),
    One(Box),
    Many(Union),
}

// The values from a to b.
pub fn between(a: u64, b: u64) -> Box
    ensures { result ≡ span a b }
{
    Box {
        lo: 0,
        hi: u64::MAX,
        least: a,
        most: b,
    }
}

// The values that agree with lo, hi.
// (Two words and no `Ternary`: it asks nothing of them.)
pub fn ternary(lo: u64, hi: u64) -> Box
    ensures { result ≡ word lo hi }
{
    Box {
        lo,
        hi,
        least: 0,
        most: u64::MAX,
    }
}

// The values whose n low bits are c.
pub fn low_are(n: u32, c: u64) -> Box
    requires { (n ≤ 64) × (c < 2 ^ n) }
    ensures { result ≡ low_are n c }
{
    ternary(c, words::set_low(u64::MAX, n, c))
}

// The values that a right shift by j takes to t.
pub fn shifted(t: u64, j: u32) -> Box
    requires { (j < 64) × (t * 2 ^ j + 2 ^ j ≤ 2 ^ 64) }
    ensures { result ≡ shifted_to t j }
{
    let a = t << j;
    between(a, a + ((1u64 << j) - 1))
}

// The complements, of w bits, of the values of a box.
pub fn mirror(b: Box, w: u32) -> Box
    requires { (1 ≤ w) × (w ≤ 64) × Bounded w b }
    ensures { result ≡ mirrored w b }
{
    let top = words::to_width(b.hi, w);
    Box {
        lo: operators::flip(top, w),
        hi: operators::flip(b.lo, w),
        least: operators::flip(b.most, w),
        most: operators::flip(b.least, w),
    }
}

// Up to a, and from b on.
pub(crate) fn end_at(a: u64, b: u64, j: u32) -> Box
    ensures { result ≡ end_at a b j }
{
    if j == 0 {
        return between(0, a);
    }
    between(b, u64::MAX)
}

// A box met with a pair: the values of the box that agree with it.
pub(crate) fn meet(b: Box, pair: Ternary) -> Box
    ensures { result ≡ met b pair.lo pair.hi }
{
    Box {
        lo: pair.lo | b.lo,
        hi: pair.hi & b.hi,
        least: b.least,
        most: b.most,
    }
}

// The least value from p on that lies in the box.
#[tactic(auto, using(crate::proofs::BoxLaws::no_word))]
pub(crate) fn first_in_box(b: Box, p: u64) -> Option<u64>
    ensures { FirstFrom (In b) p result }
{
    let word = Ternary::new(b.lo, b.hi)?;
    words::first_between(word, b.least, b.most, p)
}

// The pick from the values that lie in the box.
// (It and first_in_box differ in one call; a function as an argument would bring its clauses, which is more to read.)
#[tactic(auto, using(crate::proofs::BoxLaws::no_word))]
fn pick_in_box(b: Box, p: u64) -> Option<u64>
    ensures { Picked (In b) p result }
{
    let word = Ternary::new(b.lo, b.hi)?;
    words::pick_between(word, b.least, b.most, p)
}

// The pick from a single value: it is there and agrees with lo, hi or not.
// (Two words and no `Ternary`: it asks nothing of them.)
pub fn pick_only(c: u64, there: bool, lo: u64, hi: u64) -> Option<u64>
    ensures { (p : ℕ) → Picked (Chosen (Set.Only c there) lo hi) p result }
{
    if words::agrees(c, lo, hi) & there {
        Some(c)
    } else {
        None
    }
}

// The pick from the values that agree with a pair and are in the set.
pub fn pick_in(set: Set, pair: Ternary, p: u64) -> Option<u64>
    requires { Fine set }
    ensures { Picked (Chosen set pair.lo pair.hi) p result }
{
    match set {
        Set::Empty => None,
        Set::Only(c, there) => pick_only(c, there, pair.lo, pair.hi),
        Set::One(b) => pick_in_box(meet(b, pair), p),
        Set::Many(u) => pick_in_union(u, pair, p),
    }
}
