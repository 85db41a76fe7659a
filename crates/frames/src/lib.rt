// The frame bench of document 02, an entry point: gathers stimulus from many starts of one problem.
#![tactic(auto)]

ghost use Rattle.std.specs.Prelude.{◌≡◌};
ghost use Rattle.frames.specs.Bench.{Gather};
ghost use Rattle.frames.specs.inner.Bench.{gathered_of};

mod gathering;
mod made;
mod names;

use batches::{batch_refusal, run_starts};
use gathering::{Tally, gather_models};
use made::Made;
use names::own_refusal;
use problem::{Problem, Refusal};

/// How many solutions are kept, how many models agree with a kept one, and how many are neither; and what was found of the call.
// `Gather`, and with it `gather_determined`, says of a refusal too that the counts are 0: so they stand beside what was found.
#[derive(Clone, Copy, Debug, PartialEq, Eq)]
pub struct Gathered {
    pub kept: u64,
    pub repeats: u64,
    pub unkept: u64,
    pub found: Result<(), Refusal>,
}

// What callers are told: the counts, or the refusal and counts of 0.
fn told(outcome: Result<Tally, Refusal>) -> Gathered
    ensures { result ≡ gathered_of outcome }
{
    match outcome {
        Ok(tally) => Gathered {
            kept: tally.kept,
            repeats: tally.repeats,
            unkept: tally.unkept,
            found: Ok(()),
        },
        Err(refusal) => Gathered {
            kept: 0,
            repeats: 0,
            unkept: 0,
            found: Err(refusal),
        },
    }
}

// The starts and the gathering, or the first refusal, before anything is run.
// (The 9 parameters of `gather`, which C's `wal_gather` and the definition `Gather` fix: a struct for this one call is no plainer.)
fn gather_all(
    problem: &[u8],
    starts: u64,
    values: &mut [u64],
    tape: &[u64],
    lengths: &[u64],
    budgets: &[u16],
    names: &[u16],
    kept: &mut [u64],
    answers: &mut [u64],
) -> Result<Tally, Refusal>
    ensures { Gather problem.now starts values.old tape.now lengths.now budgets.now names.now kept.old answers.old values.new kept.new answers.new (gathered_of result) }
{
    batch_refusal(problem, starts, values, tape, lengths, budgets, answers)?;
    let accepted = Problem { bytes: problem };
    own_refusal(accepted, names, kept)?;
    run_starts(problem, starts, values, tape, lengths, budgets, answers);
    let made = Made {
        problem,
        starts: starts as usize,
        values,
        answers,
    };
    Ok(gather_models(made, names, kept))
}

/// Calls the search start after start, and keeps up to 64 solutions that differ on the named variables; or a refusal, which leaves
/// every place as it was.
// (Nine parameters: those of C's `wal_gather` but `out`, of which `Gather` speaks one by one.)
pub fn gather(
    problem: &[u8],
    starts: u64,
    values: &mut [u64],
    tape: &[u64],
    lengths: &[u64],
    budgets: &[u16],
    names: &[u16],
    kept: &mut [u64],
    answers: &mut [u64],
) -> Gathered
    ensures { Gather problem.now starts values.old tape.now lengths.now budgets.now names.now kept.old answers.old values.new kept.new answers.new result }
{
    told(gather_all(
        problem, starts, values, tape, lengths, budgets, names, kept, answers,
    ))
}
