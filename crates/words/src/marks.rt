// A set of ids below 1,024 as bits of 16 words.
ghost use Rattle.std.specs.Prelude.{◌≡◌, ◌<◌, ◌≤◌, length};
ghost use Rattle.words.specs.inner.Decides.{Decides};
ghost use Rattle.words.specs.inner.Marks.{Marked, with_mark, without_mark, Lowest};

use crate::bits::low_bit;

// One id more.
// (That an id is below 1,024 is a clause, here and below: ids come as numbers out of bytes.)
#[tactic(auto, using(crate::specs::laws::Shift::one_shl), unfolding(crate::specs::inner::Marks::with_mark))]
pub fn mark(marks: &mut [u64; 16], n: u16)
    requires { n < 1024 }
    ensures { marks.new ≡ with_mark marks.old n }
{
    let w = usize::from(n / 64);
    let bit = 1u64 << (n % 64);
    marks[w] |= bit;
}

// One id less: the bit of an id that is in the set is turned.
#[tactic(auto, using(crate::specs::laws::Shift::one_shl), unfolding(crate::specs::inner::Marks::without_mark))]
pub fn unmark(marks: &mut [u64; 16], n: u16)
    requires { n < 1024 }
    ensures { marks.new ≡ without_mark marks.old n }
{
    let w = usize::from(n / 64);
    let bit = 1u64 << (n % 64);
    marks[w] ^= bit;
}

// Whether an id is in the set.
#[tactic(auto, using(crate::specs::laws::Decides::decides_eq), unfolding(crate::specs::inner::Marks::mark, crate::specs::Bits::bit))]
pub fn marked(marks: &[u64], n: u16) -> bool
    requires { (length marks.now ≡ 16) × (n < 1024) }
    ensures { Decides (Marked marks.now n) result }
{
    let w = usize::from(n / 64);
    let word = marks[w] >> (n % 64);
    word % 2 == 1
}

// The lowest id from a given one on, and 1,024 where there is none: an end as good as an id, since who asks takes the lesser of it and
// his own count.
pub fn lowest(marks: &[u64], from: u16) -> u16
    requires { (length marks.now ≡ 16) × (from ≤ 1024) }
    ensures { Lowest marks.now from result }
{
    let mut at = from;
    for w in from / 64..16 {
        let word = marks[usize::from(w)] >> (at % 64);
        if word != 0 {
            return at + (low_bit(word) as u16);
        }
        at = (w + 1) * 64;
    }
    1024
}
