// The refusals that come before nodes are placed: 1 to 6, then 7, 8 and 20, then 21. The tests are the problem check's own.
ghost use Rattle.std.specs.Prelude.{◌≡◌, ◌+◌, ◌*◌, ◌≤◌, length};
ghost use Rattle.problem.specs.Layout.{node_count};
ghost use Rattle.problem.specs.Refusals.{first_below};
ghost use Rattle.mending.specs.Refusals.{early, early_fault, operand_fault, fault_before};
ghost use Rattle.mending.specs.inner.Order.{Readable};

use operators::operand_count;
use problem::{
    Fault, Refusal, first_refusal, header_fault, node_at, node_count, node_fault, operand_above,
    refuse_if,
};

// 7, 8 and 20 alone, of what the problem's test says of a node: it tries them before the others. A refusal tells its number, which
// the definition `early` compares, so no fault is matched here.
#[tactic(auto, using(crate::specs::laws::Faults::early_kept, crate::specs::laws::Faults::early_dropped))]
fn early_only(found: Result<(), Refusal>) -> Result<(), Refusal>
    ensures { result ≡ early found }
{
    let Err(refusal) = found else {
        return Ok(());
    };
    let number = refusal.number;
    if (number <= Fault::Width.number()) | (number == Fault::Division.number()) {
        return found;
    }
    Ok(())
}

// 7, 8 and 20, of node i.
#[tactic(auto, unfolding(crate::specs::Refusals::early_fault))]
fn early_fault(problem: &[u8], i: u16) -> Result<(), Refusal>
    requires { 9 + 24 * i + 24 ≤ length problem.now }
    ensures { result ≡ early_fault problem.now i }
{
    early_only(node_fault(problem, i))
}

// 7, 8 and 20, node by node in ascending id.
// (Here and for 21 one call of `first_refusal`, named for what it promises: no plainer as one.)
fn early_faults(problem: &[u8]) -> Result<(), Refusal>
    requires { 9 + 24 * node_count problem.now ≤ length problem.now }
    ensures { result ≡ first_below (early_fault problem.now) (node_count problem.now) }
{
    first_refusal(node_count(problem), |i| early_fault(problem, i))
}

// 21, of node i.
#[tactic(auto, unfolding(crate::specs::Refusals::operand_fault, problem::specs::Refusals::first_of))]
fn operand_fault(problem: &[u8], i: u16) -> Result<(), Refusal>
    requires { Readable problem.now i }
    ensures { result ≡ operand_fault problem.now i }
{
    let n = node_at(problem, i);
    let beyond = operand_above(n, operand_count(n.kind), node_count(problem));
    refuse_if(beyond, Fault::Beyond, i)
}

// 21, node by node in ascending id.
fn operand_faults(problem: &[u8]) -> Result<(), Refusal>
    requires { 9 + 24 * node_count problem.now ≤ length problem.now }
    ensures { result ≡ first_below (operand_fault problem.now) (node_count problem.now) }
{
    first_refusal(node_count(problem), |i| operand_fault(problem, i))
}

// What is tried before nodes are placed.
#[tactic(auto, using(crate::proofs::Room::header_room), unfolding(crate::specs::Refusals::fault_before))]
pub(crate) fn fault_before(problem: &[u8]) -> Result<(), Refusal>
    ensures { result ≡ fault_before problem.now }
{
    header_fault(problem)?;
    early_faults(problem)?;
    operand_faults(problem)
}
