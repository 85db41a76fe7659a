// How long a tape a problem needs, an entry point: H, and the words for a budget.
#![tactic(auto)]

ghost use Rattle.std.specs.Prelude.{◌≡◌};
ghost use Rattle.problem.specs.Refusals.{Accepted};
ghost use Rattle.tapes.specs.Needed.{Needed};

mod heights;

use heights::{fill_heights, longest_chain, words_for};
use problem::{Problem, Refusal};

/// What a problem asks of a tape: H, the words for a budget, and what the problem check found.
// `Needed`, and with it `need_determined`, says of a refusal too that H and the words are 0: so they stand beside what was found.
#[derive(Clone, Copy, Debug, PartialEq, Eq)]
pub struct TapeNeed {
    pub h: u64,
    pub words: u64,
    pub found: Result<(), Refusal>,
}

// What an accepted problem asks.
#[tactic(auto, using(crate::proofs::Links::chain_short))]
fn need_of(problem: Problem, budget: u16) -> TapeNeed
    ensures { Needed problem.entry.bytes.now budget result }
{
    let mut heights = [0u64; 1024];
    fill_heights(problem, &mut heights);
    let h = longest_chain(problem, &heights);
    TapeNeed {
        h,
        words: words_for(budget, h),
        found: Ok(()),
    }
}

/// How long a tape is needed for a budget: H and budget x (1 + 2H), or a refusal, and both 0.
pub fn need(problem: &[u8], budget: u16) -> TapeNeed
    ensures { Needed problem.now budget result }
{
    match Problem::parse(problem) {
        Ok(accepted) => need_of(accepted, budget),
        Err(refusal) => TapeNeed {
            h: 0,
            words: 0,
            found: Err(refusal),
        },
    }
}
