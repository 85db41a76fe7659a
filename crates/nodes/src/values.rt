// What becomes of one node: its value, from what stands at its operands' places, if it is to be evaluated.
ghost use Rattle.std.specs.Prelude.{◌≡◌, ◌≤◌, length};
ghost use Rattle.problem.specs.Layout.{width_at};
ghost use Rattle.nodes.specs.Problem.{problem as prob_of};
ghost use Rattle.nodes.specs.inner.Nodes.{is_all, Readable, Evaluable, Takes};

use crate::due::{Scope, operands_due};
use operators::{
    KINDS, below_signed, extend, flip, join, kind, left, part, product, quotient, right,
    right_signed, sum,
};
use problem::{Problem, node_at};

// The width of a node, a plain read.
#[tactic(auto, unfolding(problem::specs::Layout::width_at))]
fn width_of(bytes: &[u8], id: u16) -> u32
    requires { Readable bytes.now id }
    ensures { result ≡ width_at bytes.now id }
{
    u32::from(node_at(bytes, id).width)
}

/// The value of node i, if it is to be evaluated: a variable's own place, a constant's lo, else what its operator gives. Each arm
/// asks after the operands that its kind has and reads those alone, an operand's width too, so that there is one jump by the kind
/// and no node pays for another's operands: to ask by their number first and match the kind after that is shorter, and takes 46
/// instructions a node in place of 30. Operand b of a concat is as wide as operand a leaves.
#[tactic(auto, using(crate::specs::laws::Taking::operands_valued, crate::specs::laws::Taking::operands_marked, crate::specs::laws::Taking::kept, crate::specs::laws::Taking::fits, crate::specs::laws::Taking::taken, crate::specs::laws::Readings::first_readable))]
pub fn taken_at(problem: Problem, values: &[u64], marks: &[u8], i: u16, scope: Scope) -> Option<u64>
    requires evaluable { Evaluable problem.bytes.now values.now i }
    requires marked { (prob_of problem.bytes.now).nodes ≤ length marks.now }
    ensures { Takes problem.entry.bytes.now i (is_all scope) values.now marks.now result }
{
    let n = problem.node(i);
    let w = u32::from(n.width);
    let value = match n.kind {
        kind::VARIABLE => {
            if !scope.is_all() {
                return None;
            }
            values[usize::from(i)]
        }
        kind::CONSTANT => {
            if !scope.is_all() {
                return None;
            }
            n.lo
        }
        kind::NOT => {
            let x = operands_due(values, marks, n, 1, scope)?;
            flip(x.a, w)
        }
        kind::AND => {
            let x = operands_due(values, marks, n, 2, scope)?;
            x.a & x.b
        }
        kind::XOR => {
            let x = operands_due(values, marks, n, 2, scope)?;
            x.a ^ x.b
        }
        kind::ADD => {
            let x = operands_due(values, marks, n, 2, scope)?;
            sum(x.a, x.b, w)
        }
        kind::MUL => {
            let x = operands_due(values, marks, n, 2, scope)?;
            product(x.a, x.b, w)
        }
        kind::SHL => {
            let x = operands_due(values, marks, n, 2, scope)?;
            left(x.a, x.b, w)
        }
        kind::LSHR => {
            let x = operands_due(values, marks, n, 2, scope)?;
            right(x.a, x.b)
        }
        kind::EQ => {
            let x = operands_due(values, marks, n, 2, scope)?;
            u64::from(x.a == x.b)
        }
        kind::BELOW => {
            let x = operands_due(values, marks, n, 2, scope)?;
            u64::from(x.a < x.b)
        }
        kind::IF => {
            let x = operands_due(values, marks, n, 3, scope)?;
            if x.a == 0 { x.c } else { x.b }
        }
        kind::CONCAT => {
            let x = operands_due(values, marks, n, 2, scope)?;
            join(x.a, x.b, w - width_of(problem.bytes, n.a))
        }
        kind::EXTRACT => {
            let x = operands_due(values, marks, n, 1, scope)?;
            part(x.a, u32::from(n.b), w)
        }
        kind::SLT => {
            let x = operands_due(values, marks, n, 2, scope)?;
            below_signed(x.a, x.b, width_of(problem.bytes, n.a))
        }
        kind::ASHR => {
            let x = operands_due(values, marks, n, 2, scope)?;
            right_signed(x.a, x.b, w)
        }
        kind::SEXT => {
            let x = operands_due(values, marks, n, 1, scope)?;
            extend(x.a, width_of(problem.bytes, n.a), w)
        }
        kind::UDIV => {
            let x = operands_due(values, marks, n, 2, scope)?;
            quotient(x.a, x.b, w)
        }
        KINDS..=u8::MAX => return None,
    };
    Some(value)
}
