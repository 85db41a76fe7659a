// What a move reads of a problem.
ghost use Rattle.nodes.specs.Problem.{problem as prob_of};
ghost use Rattle.moves.specs.Moves.{ClosedRoot};

use nodes::Pairs;

/// The pairs of a problem of which no root is fixed at 0, and the slots of its index of readers.
#[derive(Clone, Copy, Debug)]
pub struct Prepared<'a> {
    pub pairs: Pairs<'a>,
    pub slots: &'a [u16],
    ghost open: { ClosedRoot (prob_of pairs.problem.bytes.now) → ⊥ },
}
