// Refusal 16, of document 02's R-5: a root id that occurred earlier in the file.
ghost use Rattle.std.specs.Prelude.{◌≡◌, ℕ, ◌<◌};
ghost use Rattle.problem.specs.Layout.{root_at, root_count};
ghost use Rattle.problem.specs.Refusals.{first_below, repeat_fault};

use crate::Refusal;
use crate::fault::Fault;
use crate::layout::{root_at, root_count};
use crate::refusals::refuse_if;
use words::{mark, marked};

// 16, root by root in file order. The ids passed are marks in a set, so that each root is looked up there and not searched for.
#[tactic(auto, using(crate::proofs::Stops::stops, crate::proofs::Passed::passed_none, crate::proofs::Passed::passed_more, crate::proofs::Passed::repeat_line))]
pub(crate) fn repeats_fault(problem: &[u8]) -> Result<(), Refusal>
    requires { (j : ℕ) → j < root_count problem.now → root_at problem.now j < 1024 }
    ensures { result ≡ first_below (repeat_fault problem.now) (root_count problem.now) }
{
    let mut passed = [0u64; 16];
    for j in 0..root_count(problem) {
        let id = root_at(problem, j);
        refuse_if(marked(&passed, id), Fault::Repeat, j)?;
        mark(&mut passed, id);
    }
    Ok(())
}
