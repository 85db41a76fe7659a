// The roots: whether one is fixed at 0, how many entries are not satisfied, and which.
ghost use Rattle.std.specs.Prelude.{◌<◌};
ghost use Rattle.words.specs.inner.Decides.{Decides};
ghost use Rattle.nodes.specs.Problem.{problem as prob_of};
ghost use Rattle.nodes.specs.inner.Good.{Held};
ghost use Rattle.evaluation.specs.inner.Lists.{Count};
ghost use Rattle.moves.specs.Moves.{ClosedRoot, Unsatisfied};
ghost use Rattle.moves.specs.inner.Moves.{Nth};

use nodes::Pairs;
use problem::Problem;

/// Whether a root is fixed at 0.
// (Loops over positions, here and below: no slice holds the roots, and a closure would have to ask that a position is one.)
pub fn closed_root(pairs: Pairs) -> bool
    ensures { Decides (ClosedRoot (prob_of pairs.entry.problem.bytes.now)) result }
{
    for j in 0..pairs.problem.root_count() {
        if pairs.his[usize::from(pairs.problem.root(j))] == 0 {
            return true;
        }
    }
    false
}

/// How many root entries are not satisfied.
pub fn count_unsatisfied(problem: Problem, values: &[u64]) -> u64
    requires { Held (prob_of problem.bytes.now) values.now }
    ensures { Count (Unsatisfied (prob_of problem.entry.bytes.now) values.now) (prob_of problem.entry.bytes.now).entries result }
{
    let mut count = 0;
    for j in 0..problem.root_count() {
        if values[usize::from(problem.root(j))] != 1 {
            count += 1;
        }
    }
    count
}

// The root entry that is not satisfied and has k such before it.
// (A number and no Option: there is such an entry, by `below`.)
pub(crate) fn nth_unsatisfied(problem: Problem, values: &[u64], count: u64, k: u64) -> u16
    requires held { Held (prob_of problem.bytes.now) values.now }
    requires counted { Count (Unsatisfied (prob_of problem.bytes.now) values.now) (prob_of problem.bytes.now).entries count }
    requires below { k < count }
    ensures { Nth (Unsatisfied (prob_of problem.entry.bytes.now) values.now) (prob_of problem.entry.bytes.now).entries k result }
{
    let mut before = 0;
    for j in 0..problem.root_count() {
        if values[usize::from(problem.root(j))] != 1 {
            if before == k {
                return j;
            }
            before += 1;
        }
    }
    // Not reached: more than k are not satisfied.
    0
}
