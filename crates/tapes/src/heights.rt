// Heights: the longest chain of operand links from each node down, filled in upward, node by node; and the longest under a root.
ghost use Rattle.std.specs.Prelude.{◌≡◌, ◌+◌, ◌*◌, ◌<◌};
ghost use Rattle.nodes.specs.Problem.{problem as prob_of};
ghost use Rattle.evaluation.specs.Height.{Longest};
ghost use Rattle.evaluation.specs.laws.Height.{Height};
ghost use Rattle.tapes.specs.inner.Heights.{Heights};

use nodes::operand;
use operators::operand_count;
use problem::Problem;
use words::later;

// The height of node i: one link more than the greatest of its operands, 0 where it has none.
#[tactic(auto, unfolding(nodes::specs::Problem::problem), using(crate::proofs::Links::above_none, crate::proofs::Links::above_more))]
fn height_at(problem: Problem, heights: &[u64; 1024], i: u16) -> u64
    requires so_far { Heights problem.bytes.now heights.now i }
    requires inside { i < (prob_of problem.bytes.now).nodes }
    ensures { Height (prob_of problem.entry.bytes.now) i result }
{
    let node = problem.node(i);
    let count = u32::from(operand_count(node.kind));
    let mut most = 0;
    for j in 0..count {
        most = later(most, heights[usize::from(operand(node, j))] + 1);
    }
    most
}

// The heights of all nodes, in ascending id.
// (By number: each height is found from those that stand before it in the same array.)
#[tactic(auto, unfolding(nodes::specs::Problem::problem))]
pub(crate) fn fill_heights(problem: Problem, heights: &mut [u64; 1024])
    ensures { Heights problem.entry.bytes.now heights.new (prob_of problem.entry.bytes.now).nodes }
{
    for i in 0..problem.node_count() {
        heights[usize::from(i)] = height_at(problem, heights, i);
    }
}

// H: the greatest height of a root.
// (A loop over positions: no slice holds the roots, and a closure would have to ask that a position is one.)
#[tactic(auto, unfolding(nodes::specs::Problem::problem), using(crate::proofs::Links::tallest_none, crate::proofs::Links::tallest_more))]
pub(crate) fn longest_chain(problem: Problem, heights: &[u64; 1024]) -> u64
    requires { Heights problem.bytes.now heights.now (prob_of problem.bytes.now).nodes }
    ensures { Longest (prob_of problem.entry.bytes.now) result }
{
    let mut most = 0;
    for j in 0..problem.root_count() {
        most = later(most, heights[usize::from(problem.root(j))]);
    }
    most
}

// The words of so many moves, of at most h steps each.
pub(crate) fn words_for(budget: u16, h: u64) -> u64
    requires { h < 1024 }
    ensures { result ≡ budget * (1 + 2 * h) }
{
    u64::from(budget) * (1 + 2 * h)
}
