// Reading a problem, and the problem check: refusals 1 to 13 of document 01 and 16 and 20 of document 02.
// Callers write problem::check, problem::node_at: the modules are for the reader.
#![tactic(auto)]

ghost use Rattle.std.specs.Prelude.{◌≡◌};
ghost use Rattle.problem.specs.Refusals.{checked};

mod accepted;
mod fault;
mod layout;
mod refusals;
mod repeats;

pub use accepted::Problem;
pub use fault::Fault;
pub use layout::{
    Node, node_at, node_count, read_node, root_at, root_count, u16_at, u32_at, u64_at, width_at,
};
pub use refusals::{
    first_refusal, header_fault, line, node_fault, operand_above, over_width, refuse_if,
};
use refusals::{nodes_fault, roots_fault};
use repeats::repeats_fault;

/// A refusal's number, and its place: a node's id, a root's position, or 0.
// (By number: the definitions `refusal` and `checked` have it so, and callers are told it; `Fault` has the names.)
#[derive(Clone, Copy, Debug, PartialEq, Eq)]
pub struct Refusal {
    pub number: u8,
    pub place: u16,
}

/// The problem check: the first refusal of 1 to 13, 16 and 20, and its place. The header is tried first, then the nodes in ascending
/// id, then the roots in file order, and then once more for repeats.
#[tactic(auto, using(crate::proofs::Stops::nodes_inside, crate::proofs::Stops::roots_small), unfolding(crate::specs::Refusals::checked))]
pub fn check(problem: &[u8]) -> Result<(), Refusal>
    ensures { result ≡ checked problem.now }
{
    header_fault(problem)?;
    nodes_fault(problem)?;
    roots_fault(problem)?;
    repeats_fault(problem)
}
