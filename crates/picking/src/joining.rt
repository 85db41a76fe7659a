// Concat and extract: the values of an operand that give t, and those that do so with some value of the other.
ghost use Rattle.std.specs.Prelude.{◌≡◌, ◌+◌, ◌-◌, ◌*◌, ◌/◌, ◌%◌, ◌^◌, ◌<◌, ◌≤◌};
ghost use Rattle.boxes.specs.inner.Boxes.{Solves, SomeAgreeing};
ghost use Rattle.picking.specs.inner.Asks.{joint, part_of, side_of, Joined};

use crate::basic;
use boxes::Set;
use words::Ternary;

// What a or b is, where a above the k bits of b is t.
fn part(i: u32, k: u32, t: u64) -> u64
    requires { k < 64 }
    ensures { result ≡ part_of i k t }
{
    if i == 0 { t >> k } else { words::cut(t, k) }
}

pub(crate) fn inverse_concat(i: u32, wa: u32, wb: u32, s: u64, t: u64) -> Set
    requires { Joined i wa wb t × (s < 2 ^ side_of (1 - i) wa wb) }
    ensures { Solves (side_of i wa wb) (λ v. (joint i v s).a * 2 ^ wb + (joint i v s).b ≡ t) result }
{
    basic::only_if(part(i, wb, t), part(1 - i, wb, t), s)
}

// The rest of t has to agree with the other's pair.
pub(crate) fn consistent_concat(i: u32, wa: u32, wb: u32, pair: Ternary, t: u64) -> Set
    requires { Joined i wa wb t × (pair.hi < 2 ^ side_of (1 - i) wa wb) }
    ensures { Solves (side_of i wa wb) (λ v. SomeAgreeing pair.lo pair.hi (λ s. (joint i v s).a * 2 ^ wb + (joint i v s).b ≡ t)) result }
{
    basic::only_where(
        part(i, wb, t),
        words::agrees(part(1 - i, wb, t), pair.lo, pair.hi),
    )
}

// The w bits from bit k on are t, the others are free.
pub(crate) fn inverse_extract(w: u32, k: u32, t: u64) -> Set
    requires { (1 ≤ w) × (k + w ≤ 64) × (t < 2 ^ w) }
    ensures { Solves 64 (λ v. v / 2 ^ k % 2 ^ w ≡ t) result }
{
    basic::agreeing(t << k, !(words::cut(!t, w) << k))
}
