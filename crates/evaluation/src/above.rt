// Evaluation of all nodes, and of those above a changed variable alone.
ghost use Rattle.std.specs.Prelude.{◌≡◌, ◌≤◌, length};
ghost use Rattle.nodes.specs.Problem.{problem as prob_of, evaluate as evaluated};
ghost use Rattle.nodes.specs.Values.{VariablesAgree};
ghost use Rattle.evaluation.specs.inner.Evaluation.{Changed, Renewal};

use crate::Readers;
use crate::pass::{Span, pass_over};
use nodes::Scope;
use problem::Problem;

/// All nodes evaluated.
#[tactic(auto, using(crate::specs::laws::Passing::answered_whole))]
pub fn evaluate(problem: Problem, values: &mut [u64])
    requires places { (prob_of problem.bytes.now).nodes ≤ length values.old }
    requires agrees { VariablesAgree (prob_of problem.bytes.now) values.old }
    ensures { values.new ≡ evaluated (prob_of problem.entry.bytes.now) values.old }
{
    let all = Span {
        scope: Scope::All,
        variable: 0,
        first: 0,
        end: problem.node_count(),
    };
    pass_over(problem, values, all);
}

/// All nodes above v evaluated, after v was set; and how many they are. They begin with v's first reader, and the index tells where
/// they end.
#[tactic(auto, using(crate::specs::laws::Passing::answered_part))]
pub fn evaluate_above(readers: Readers, values: &mut [u64], v: u16) -> u64
    requires { Changed readers.problem.bytes.now readers.slots.now values.old v }
    ensures { Renewal readers.entry.problem.bytes.now values.old v values.new result }
{
    let begin = 4 * usize::from(v);
    let link = readers.slots[begin];
    if link == 0 {
        return 1;
    }
    let above = Span {
        scope: Scope::Above,
        variable: v,
        first: link / 4,
        end: readers.slots[begin + 1],
    };
    pass_over(readers.problem, values, above)
}
