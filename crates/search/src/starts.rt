// Refusals of a call: 1 to 13, 16 and 20 by the problem check, then 14 and 15.
ghost use Rattle.std.specs.Prelude.{Err as Refused, ◌≡◌, ◌≤◌, ◌<◌, length, IfOk, IfErr};
ghost use Rattle.problem.specs.Layout.{node_count};
ghost use Rattle.problem.specs.Refusals.{◌then◌, first_below, checked};
ghost use Rattle.search.specs.Call.{places_fault, start_fault};

use operators::kind;
use problem::{Fault, Problem, Refusal, first_refusal, refuse_if};
use words::agrees;

// 15, of node i: it is a variable, and its start does not agree with its pair.
// (A place for each node is asked for in a clause, here and in a run: values are written, so no view holds them.)
fn start_fault(problem: Problem, values: &[u64], i: u16) -> Result<(), Refusal>
    requires places { node_count problem.bytes.now ≤ length values.now }
    requires inside { i < node_count problem.bytes.now }
    ensures { result ≡ start_fault problem.entry.bytes.now values.now i }
{
    let n = problem.node(i);
    let v = values[usize::from(i)];
    let fits = agrees(v, n.lo, n.hi);
    refuse_if((n.kind == kind::VARIABLE) & !fits, Fault::Start, i)
}

// 15, by ascending id.
pub(crate) fn starts_fault(problem: Problem, values: &[u64]) -> Result<(), Refusal>
    requires { node_count problem.bytes.now ≤ length values.now }
    ensures { result ≡ first_below (start_fault problem.entry.bytes.now values.now) (node_count problem.entry.bytes.now) }
{
    first_refusal(
        problem.node_count(),
        move |i| start_fault(problem, values, i),
    )
}

// The view of a problem for whose nodes there are places; or 1 to 13, 16 and 20, then 14.
#[tactic(auto, unfolding(crate::specs::Call::places_fault, problem::specs::Refusals::first_of))]
pub(crate) fn lent<'a>(problem: &'a [u8], values: &[u64]) -> Result<Problem<'a>, Refusal>
    ensures view { IfOk result (λ p. p.bytes.now ≡ problem.now) }
    ensures places { IfOk result (λ p. node_count problem.now ≤ length values.now) }
    ensures refused { IfErr result (λ r. (checked problem.now then places_fault problem.now values.now) ≡ Refused r) }
{
    let accepted = Problem::parse(problem)?;
    let few = values.len() < usize::from(accepted.node_count());
    refuse_if(few, Fault::Places, 0)?;
    Ok(accepted)
}
