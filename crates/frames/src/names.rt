// Refusals of the bench's own: of the names 23 and 24, and of the places to keep in 26.
ghost use Rattle.std.specs.Prelude.{◌≡◌, ◌<◌, length};
ghost use Rattle.problem.specs.Refusals.{first_below};
ghost use Rattle.frames.specs.Names.{no_variable, name_fault};
ghost use Rattle.frames.specs.inner.Bench.{own_refusals};

use crate::gathering::MOST;
use operators::kind;
use problem::{Fault, Problem, Refusal, refuse_if};

// Whether an id names no variable.
#[tactic(auto, unfolding(crate::specs::Names::no_variable))]
fn no_variable(problem: Problem, id: u16) -> bool
    ensures { result ≡ no_variable problem.entry.bytes.now id }
{
    problem.node_count() <= id || problem.node(id).kind != kind::VARIABLE
}

// 24, of the name at k: it is no variable, or one of the names before it.
fn name_fault(problem: Problem, names: &[u16], k: usize) -> Result<(), Refusal>
    requires { k < length names.now }
    ensures { result ≡ name_fault problem.entry.bytes.now names.now k }
{
    let id = names[k];
    let again = names[..k].contains(&id);
    refuse_if(no_variable(problem, id) | again, Fault::Name, 0)
}

// 24, of every name.
// (By number, as each is held against those before it, and not by `first_refusal`, which counts in 16 bits.)
#[tactic(auto, using(problem::specs::laws::First::first_found))]
fn names_fault(problem: Problem, names: &[u16]) -> Result<(), Refusal>
    ensures { result ≡ first_below (name_fault problem.entry.bytes.now names.now) (length names.now) }
{
    for k in 0..names.len() {
        name_fault(problem, names, k)?;
    }
    Ok(())
}

// The first refusal of the bench's own, or that there is none.
#[tactic(auto, unfolding(crate::specs::inner::Bench::own_refusals, crate::specs::Names::count_fault, crate::specs::Names::keep_fault, problem::specs::Refusals::first_of))]
pub(crate) fn own_refusal(problem: Problem, names: &[u16], kept: &[u64]) -> Result<(), Refusal>
    ensures { result ≡ own_refusals problem.entry.bytes.now names.now kept.now }
{
    refuse_if(names.is_empty() | (8 < names.len()), Fault::Names, 0)?;
    names_fault(problem, names)?;
    refuse_if(
        kept.len() < MOST * usize::from(problem.node_count()),
        Fault::Keep,
        0,
    )
}
