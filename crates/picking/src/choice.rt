// If: the values of the condition or of a branch that give t with the others as they are, and those that do so with some values of
// the others that agree with their pairs.
ghost use Rattle.std.specs.Prelude.{◌≡◌, ◌<◌, ◌≤◌};
ghost use Rattle.operators.specs.Meaning.{choose};
ghost use Rattle.picking.specs.Spot.{put};
ghost use Rattle.boxes.specs.inner.Boxes.{Solves};
ghost use Rattle.picking.specs.inner.Asks.{branch_of, HadIf};

use crate::basic;
use crate::spot::{Three, at};
use boxes::Set;

// The branch that is taken, as a position.
pub fn branch(x: u64) -> u32
    ensures { result ≡ branch_of x }
{
    if x == 0 { 2 } else { 1 }
}

// Branch b has to be t for a condition other than 0, branch c for 0.
pub(crate) fn inverse_condition(y: u64, z: u64, t: u64) -> Set
    ensures { Solves 64 (λ v. choose v y z ≡ t) result }
{
    if y != t {
        return basic::only_if(0, z, t);
    }
    if z != t {
        return basic::above(0);
    }
    basic::all()
}

// The branch that is taken has to be t; the other is free where the taken one is t.
pub(crate) fn inverse_branch(i: u32, now: Three, t: u64) -> Set
    requires { (1 ≤ i) × (i < 3) }
    ensures { Solves 64 (λ v. choose (put now i v).a (put now i v).b (put now i v).c ≡ t) result }
{
    if branch(now.a) == i {
        return basic::only(t);
    }
    basic::all_if(at(now, 3 - i), t)
}

// (It and consistent_if ask only which position is meant; each promises its own equation.)
pub(crate) fn inverse_if(i: u32, now: Three, t: u64) -> Set
    requires { i < 3 }
    ensures { Solves 64 (λ v. choose (put now i v).a (put now i v).b (put now i v).c ≡ t) result }
{
    if i == 0 {
        return inverse_condition(now.b, now.c, t);
    }
    inverse_branch(i, now, t)
}

// Some other values that agree with their pairs do: what branch b can be for a condition other than 0, what branch c can be for 0.
// (los and his, here and below, as a spot has them and `HadIf` takes them.)
fn consistent_condition(los: Three, his: Three, t: u64) -> Set
    ensures { Solves 64 (λ v. HadIf los his t 0 v) result }
{
    if words::agrees(t, los.b, his.b) {
        if words::agrees(t, los.c, his.c) {
            return basic::all();
        }
        return basic::above(0);
    }
    basic::only_where(0, words::agrees(t, los.c, his.c))
}

// Branch i is taken where the condition is 2 - i. It is free where the condition can take the other branch, 3 - i, and that one can
// be t; else it has to be t, and the condition has to take it.
fn consistent_branch(i: u32, los: Three, his: Three, t: u64) -> Set
    requires { (1 ≤ i) × (i < 3) }
    ensures { Solves 64 (λ v. HadIf los his t i v) result }
{
    let way = u64::from(2 - i);
    let j = 3 - i;
    let l = at(los, j);
    let h = at(his, j);
    if words::agrees(1 - way, los.a, his.a) & words::agrees(t, l, h) {
        return basic::all();
    }
    basic::only_where(t, words::agrees(way, los.a, his.a))
}

pub(crate) fn consistent_if(i: u32, los: Three, his: Three, t: u64) -> Set
    requires { i < 3 }
    ensures { Solves 64 (λ v. HadIf los his t i v) result }
{
    if i == 0 {
        return consistent_condition(los, his, t);
    }
    consistent_branch(i, los, his, t)
}
