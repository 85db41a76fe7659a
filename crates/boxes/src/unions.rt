// Sets of words that are no single box, and the search in one.
ghost use Rattle.std.specs.Prelude.{◌≡◌, ◌+◌, ◌≤◌, ◌<◌};
ghost use Rattle.words.specs.Agree.{Agrees};
ghost use Rattle.words.specs.Pick.{FirstFrom, Picked};
ghost use Rattle.boxes.specs.inner.Boxes.{box_of, FineOf, ChosenOf};

use crate::{Box, end_at, first_in_box, low_are, meet, mirror, shifted};
use words::Ternary;

// Rows of boxes, by their place j.
#[derive(Clone, Copy, Debug, PartialEq, Eq)]
pub enum Row {
    // What a shift by j takes to t: to the left, modulo 2^w (t, w), or to the right (t).
    Left(u64, u32),
    Right(u64),
    // The complements, of w bits, of what a shift to the right by j takes to u (u, w).
    Mirrored(u64, u32),
    // Up to a, and from b on (a, b).
    Ends(u64, u64),
}

#[derive(Clone, Copy, Debug, PartialEq, Eq)]
pub enum Union {
    // All but one value.
    Except(u64),
    // Some of the m low bits set.
    Low(u32),
    // Up to m, what some divisor takes to t: v / t does, and no other need be tried (t, m).
    Dividends(u64, u64),
    // The first n boxes of a row that has room for them.
    Several(Row, u32),
}

// The box at place j.
fn box_of(by: Row, n: u32, j: u32) -> Box
    requires { FineOf (Union.Several by n) × (j < n) }
    ensures { result ≡ box_of by j }
{
    match by {
        Row::Left(t, w) => low_are(w - j, t >> j),
        Row::Right(t) => shifted(t, j),
        Row::Mirrored(u, w) => mirror(shifted(u, j), w),
        Row::Ends(a, b) => end_at(a, b, j),
    }
}

// The least value from p on that agrees with the pair and is in one of the boxes: box by box, with the least so far.
fn first_several(by: Row, n: u32, pair: Ternary, p: u64) -> Option<u64>
    requires { FineOf (Union.Several by n) }
    ensures { FirstFrom (ChosenOf (Union.Several by n) pair.lo pair.hi) p result }
{
    let mut best = None;
    for j in 0..n {
        best = words::lesser_of(best, first_in_box(meet(box_of(by, n, j), pair), p));
    }
    best
}

// The least value above v that agrees with the pair.
// (A pair and a place to go from are two, here and below: a search that goes on has the same pair and another place.)
fn first_after(pair: Ternary, v: u64) -> Option<u64>
    ensures { FirstFrom (Agrees pair.lo pair.hi) (v + 1) result }
{
    let next = v.checked_add(1)?;
    words::first_agreeing(pair, next)
}

// Where s is in the way it is the one after it.
fn first_except(s: u64, pair: Ternary, p: u64) -> Option<u64>
    ensures { FirstFrom (ChosenOf (Union.Except s) pair.lo pair.hi) p result }
{
    let v = words::first_agreeing(pair, p)?;
    if v != s {
        return Some(v);
    }
    first_after(pair, v)
}

// Where the pair's hi has some of the m low bits and the first value that agrees has none, the one after it has some.
fn first_low(m: u32, pair: Ternary, p: u64) -> Option<u64>
    requires { m ≤ 64 }
    ensures { FirstFrom (ChosenOf (Union.Low m) pair.lo pair.hi) p result }
{
    if words::cut(pair.hi, m) == 0 {
        return None;
    }
    let v = words::first_agreeing(pair, p)?;
    if words::cut(v, m) != 0 {
        return Some(v);
    }
    first_after(pair, v)
}

// The first value that agrees; where v / t does not take it to t, no divisor takes to t what follows before the next multiple
// of t. Multiples that are tried so are at most 256. (A loop: where it goes on depends on what was found, which no range counts.)
fn first_dividend(t: u64, m: u64, pair: Ternary, p: u64) -> Option<u64>
    requires { FineOf (Union.Dividends t m) }
    ensures { FirstFrom (ChosenOf (Union.Dividends t m) pair.lo pair.hi) p result }
{
    let mut from = p;
    loop {
        let v = words::first_agreeing(pair, from)?;
        if m < v {
            return None;
        }
        let s = v / t;
        if v % t < s {
            return Some(v);
        }
        from = (s + 1) * t;
    }
}

// The least value from p on that agrees with the pair and is in the set.
fn first_in(set: Union, pair: Ternary, p: u64) -> Option<u64>
    requires { FineOf set }
    ensures { FirstFrom (ChosenOf set pair.lo pair.hi) p result }
{
    match set {
        Union::Except(s) => first_except(s, pair, p),
        Union::Low(m) => first_low(m, pair, p),
        Union::Dividends(t, m) => first_dividend(t, m, pair, p),
        Union::Several(by, n) => first_several(by, n, pair, p),
    }
}

// The pick from the values that agree with the pair and are in the set: as in words::pick_between the let-else of document 01's sentence.
pub(crate) fn pick_in_union(set: Union, pair: Ternary, p: u64) -> Option<u64>
    requires { FineOf set }
    ensures { Picked (ChosenOf set pair.lo pair.hi) p result }
{
    let Some(v) = first_in(set, pair, p) else {
        return first_in(set, pair, 0);
    };
    Some(v)
}
