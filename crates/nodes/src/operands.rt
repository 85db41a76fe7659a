// What the positions of a node hold: its operands' widths, and what a list of 64-bit words has at their ids. A position that
// the node's kind does not have holds 0, and no `Option`: `held_in` and `widths_in` have it so.
ghost use Rattle.std.specs.Prelude.{◌≡◌, true, ◌<◌, length, slice_index_or, cond};
ghost use Rattle.picking.specs.Spot.{at};
ghost use Rattle.operators.specs.Table.{shape_of};
ghost use Rattle.problem.specs.Layout.{width_at};
ghost use Rattle.nodes.specs.Problem.{one_of};
ghost use Rattle.nodes.specs.inner.Nodes.{ids, OperandsBelow, held_in, widths_in, operator_in};

use operators::{Op, operand_count};
use picking::Three;
use problem::{Node, width_at};

// The width of the node with an id, where the position is there. (No list holds it: it is read out of the bytes.)
fn width_if(bytes: &[u8], id: u16, there: bool) -> u8
    ensures { result ≡ one_of there (width_at bytes.now id) 0 }
{
    if there { width_at(bytes, id) } else { 0 }
}

// The widths of a node's operands, of which there are so many.
#[tactic(auto, unfolding(crate::specs::inner::Nodes::widths_in))]
pub(crate) fn widths_of(bytes: &[u8], n: Node, count: u8) -> Three
    requires { count ≡ (shape_of n.kind).operands }
    ensures { result ≡ widths_in bytes.now n }
{
    Three {
        a: u64::from(width_if(bytes, n.a, 0 < count)),
        b: u64::from(width_if(bytes, n.b, 1 < count)),
        c: u64::from(width_if(bytes, n.c, 2 < count)),
    }
}

// The operator of a node in its place.
#[tactic(auto, unfolding(crate::specs::inner::Nodes::operator_in, crate::specs::inner::Nodes::widths_in))]
pub(crate) fn operator(bytes: &[u8], n: Node) -> Op
    ensures { result ≡ operator_in bytes.now n }
{
    let count = operand_count(n.kind);
    Op {
        kind: n.kind,
        width: u32::from(n.width),
        wa: u32::from(width_if(bytes, n.a, 0 < count)),
        wb: u32::from(width_if(bytes, n.b, 1 < count)),
        low: u32::from(n.b),
    }
}

// What a list has at an id, where the position is there, and else what is given.
pub(crate) fn at_if<T: Copy>(list: &[T], id: u16, there: bool, none: T) -> T
    requires { there ≡ true → id < length list.now }
    ensures { result ≡ cond there (slice_index_or list.now id none) none }
{
    if there { list[usize::from(id)] } else { none }
}

// What a list has at the ids of a node's operands, of which there are so many.
#[tactic(auto, using(crate::specs::laws::Readings::there_below), unfolding(crate::specs::inner::Nodes::held_in, crate::specs::Problem::three))]
pub(crate) fn held(list: &[u64], n: Node, count: u8) -> Three
    requires below { OperandsBelow n (length list.now) }
    requires counted { count ≡ (shape_of n.kind).operands }
    ensures { result ≡ held_in list.now n }
{
    Three {
        a: at_if(list, n.a, 0 < count, 0),
        b: at_if(list, n.b, 1 < count, 0),
        c: at_if(list, n.c, 2 < count, 0),
    }
}

/// The id at a position. (`picking::at` is the same of words that stand in a `Three`; an id has 16 bits, and its record no `Three`.)
#[tactic(auto, using(crate::specs::laws::Readings::at_third))]
pub fn operand(n: Node, i: u32) -> u16
    ensures { result ≡ at (ids n) i }
{
    match i {
        0 => n.a,
        1 => n.b,
        _ => n.c,
    }
}
