// Values that agree with a ternary word and lie in an interval least..=most.
ghost use Rattle.std.specs.Prelude.{◌≡◌, max};
ghost use Rattle.words.specs.Agree.{Agrees};
ghost use Rattle.words.specs.Pick.{FirstFrom, Picked, Between};

use crate::ternary::{Ternary, first_agreeing};

// The greater of two numbers.
pub fn later(a: u64, b: u64) -> u64
    ensures { result ≡ max a b }
{
    a.max(b)
}

// The least value from p on that agrees with the word and lies in least..=most.
pub fn first_between(word: Ternary, least: u64, most: u64, p: u64) -> Option<u64>
    ensures { FirstFrom (Between (Agrees word.lo word.hi) least most) p result }
{
    let v = first_agreeing(word, later(least, p))?;
    if v <= most { Some(v) } else { None }
}

// The pick among these: where there is none from p on, the least of all.
// (By let-else, as document 01 has a pick's answer taken apart.)
pub fn pick_between(word: Ternary, least: u64, most: u64, p: u64) -> Option<u64>
    ensures { Picked (Between (Agrees word.lo word.hi) least most) p result }
{
    let Some(v) = first_between(word, least, most, p) else {
        return first_between(word, least, most, 0);
    };
    Some(v)
}
