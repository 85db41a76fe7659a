// Whether numbers from outside are those of a node of an accepted problem, so that picking may be asked.
ghost use Rattle.std.specs.Prelude.{◌≡◌, ◌≤◌};
ghost use Rattle.words.specs.inner.Decides.{Decides};
ghost use Rattle.operators.specs.Table.{shape_of, rule_holds};
ghost use Rattle.picking.specs.Spot.{at as standing, Asked, Slot};
ghost use Rattle.walumpeh.specs.laws.Single.{asked_single};
ghost use Rattle.walumpeh.specs.Offered.{Short, Empty, Placed, Slots, Headed, Offered};

use operators::{KINDS, Rule, Shape, kind, rule_holds, shape_of};
use picking::{Spot, at};

/// What picking may be asked: a node that an accepted problem has, one of its positions, and a target of its width. Made by
/// the caller of `is_offered`, which alone tells: to hand one back in memory costs a call of the C interface a tenth and more.
#[derive(Clone, Copy, Debug, PartialEq, Eq)]
pub(crate) struct Question {
    pub spot: Spot,
    pub position: u32,
    pub target: u64,
    ghost asked: { Asked spot position target } by { asked_single spot position target },
}

// What stands at a position: a width, a pair and a current value.
#[derive(Clone, Copy, Debug, PartialEq, Eq)]
struct Place {
    width: u64,
    lo: u64,
    hi: u64,
    value: u64,
}

// What stands at position i of a spot.
fn standing_at(s: &Spot, i: u32) -> Place
    ensures width { result.width ≡ standing s.now.widths i }
    ensures lo { result.lo ≡ standing s.now.los i }
    ensures hi { result.hi ≡ standing s.now.his i }
    ensures value { result.value ≡ standing s.now.current i }
{
    Place {
        width: at(s.widths, i),
        lo: at(s.los, i),
        hi: at(s.his, i),
        value: at(s.current, i),
    }
}

// Whether x has at most w bits, w from 1 to 64.
#[tactic(auto, using(crate::proofs::Offers::fits_law))]
fn fits(x: u64, w: u64) -> bool
    ensures { Decides (Short x w) result }
{
    1 <= w && w <= 64 && words::cut(x, w as u32) == x
}

// An operand: its pair is a pair of its width, and its current value agrees.
#[tactic(auto, using(crate::proofs::Offers::slot_law, crate::proofs::Offers::slot_none, words::specs::laws::Decides::decides_yes, words::specs::laws::Decides::decides_no))]
fn slot(p: Place) -> bool
    ensures { Decides (Slot p.width p.lo p.hi p.value) result }
{
    fits(p.hi, p.width) && words::agrees(p.value, p.lo, p.hi)
}

// No operand. By `&`, here and below, where one law says what all the tests together decide.
#[tactic(auto, using(crate::proofs::Offers::empty_law))]
fn empty(p: Place) -> bool
    ensures { Decides (Empty p.width p.lo p.hi p.value) result }
{
    (p.width == 0) & (p.lo == 0) & (p.hi == 0) & (p.value == 0)
}

// A position that is there, or is not.
#[tactic(auto, using(crate::proofs::Offers::there_law, crate::proofs::Offers::not_there_law))]
fn placed(there: bool, p: Place) -> bool
    ensures { Decides (Placed there p.width p.lo p.hi p.value) result }
{
    if there { slot(p) } else { empty(p) }
}

// The n positions that the node has, and the others.
fn slots(s: &Spot, n: u8) -> bool
    requires { n ≤ 3 }
    ensures { Decides (Slots s.now n) result }
{
    placed(0 < n, standing_at(s, 0))
        & placed(1 < n, standing_at(s, 1))
        & placed(2 < n, standing_at(s, 2))
}

// The numbers that stand outside the positions, each by itself.
#[tactic(auto, using(crate::proofs::Offers::headed_law))]
fn headed(s: &Spot) -> bool
    ensures { Decides (Headed s.now) result }
{
    (kind::NOT <= s.kind) & (s.kind < KINDS) & (1 <= s.width) & (s.width <= 64) & (s.low <= 65535)
}

// The width rule of the node's kind.
fn ruled(s: &Spot, n: u8, rule: Rule) -> bool
    requires { Headed s.now × Slots s.now n }
    ensures { result ≡ rule_holds rule s.now.width s.now.widths.a s.now.widths.b s.now.widths.c s.now.low }
{
    let w = s.widths;
    rule_holds(
        rule,
        s.width as u8,
        w.a as u8,
        w.b as u8,
        w.c as u8,
        s.low as u16,
    )
}

// The tests that need the row of the node's kind.
fn shaped(s: &Spot, shape: Shape, i: u32, t: u64) -> bool
    requires { Headed s.now × (shape ≡ shape_of s.now.kind) }
    ensures { Decides (Offered s.now i t) result }
{
    let n = shape.operands;
    slots(s, n)
        && ruled(s, n, shape.rule)
            & ((n < shape.fields) | (s.low == 0))
            & (i < u32::from(n))
            & fits(t, u64::from(s.width))
}

/// Whether a spot is one that an accepted problem has, the position one of its positions, and the target of its width.
/// (The spot by value: of a spot that it borrows, the caller would copy all for the pick.)
#[tactic(auto, using(crate::proofs::Offers::offered_headed, words::specs::laws::Decides::decides_yes, words::specs::laws::Decides::decides_no))]
pub(crate) fn is_offered(s: Spot, i: u32, t: u64) -> bool
    ensures { Decides (Offered s i t) result }
{
    headed(&s) && shaped(&s, shape_of(s.kind), i, t)
}
