// The operands of a node that is to be evaluated: all nodes are, or those that read a marked one.
ghost use Rattle.std.specs.Prelude.{◌≡◌, length};
ghost use Rattle.operators.specs.Table.{shape_of};
ghost use Rattle.nodes.specs.inner.Nodes.{is_all, OperandsBelow, Tells, Wanted, Offered};

use crate::operands::{at_if, held};
use picking::Three;
use problem::Node;

/// Which nodes a pass evaluates: all, or those that read a marked one.
#[derive(Clone, Copy, Debug, PartialEq, Eq)]
pub enum Scope {
    All,
    Above,
}

impl Scope {
    // Whether it is all of them.
    pub(crate) fn is_all(self) -> bool
        ensures { result ≡ is_all self }
    {
        self == Scope::All
    }
}

// Whether a node is to be evaluated, which has so many operands. Of bytes, so that there is one branch.
// (The count is a parameter with a clause, here and in `operands`: in `taken_at` it is a number that the compiler knows.)
#[tactic(auto, using(crate::specs::laws::Readings::there_below, crate::specs::laws::Taking::due_tells))]
fn is_due(marks: &[u8], n: Node, count: u8, scope: Scope) -> bool
    requires below { OperandsBelow n (length marks.now) }
    requires counted { count ≡ (shape_of n.kind).operands }
    ensures { Tells result (Wanted (is_all scope) marks.now n) }
{
    let a = at_if(marks, n.a, 0 < count, 0);
    let b = at_if(marks, n.b, 1 < count, 0);
    let c = at_if(marks, n.c, 2 < count, 0);
    0 < (u8::from(scope.is_all()) | a | b | c)
}

// The operands of a node, which has so many, if it is to be evaluated.
pub(crate) fn operands_due(
    values: &[u64],
    marks: &[u8],
    n: Node,
    count: u8,
    scope: Scope,
) -> Option<Three>
    requires counted { count ≡ (shape_of n.kind).operands }
    requires valued { OperandsBelow n (length values.now) }
    requires marked { OperandsBelow n (length marks.now) }
    ensures { Offered (is_all scope) marks.now values.now n result }
{
    if is_due(marks, n, count, scope) {
        Some(held(values, n, count))
    } else {
        None
    }
}
