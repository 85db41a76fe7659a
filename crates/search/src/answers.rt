// What a run answers, as numbers: for the C interface, and where many answers stand one after another.
ghost use Rattle.std.specs.Prelude.{◌≡◌};
ghost use Rattle.search.specs.Answers.{verdict_number, verdict_code, refusal_code, outcome_code};

use crate::{Outcome, Verdict};
use problem::Refusal;

// (`as`: the variants stand in the order of their numbers, and no `From` takes them.)
fn verdict_number(v: Verdict) -> u64
    ensures { result ≡ verdict_number v }
{
    v as u64
}

/// 0 model, 1 spent, 2 ended, 3 closed, 4 refused.
pub fn verdict_code(o: Outcome) -> u64
    ensures { result ≡ verdict_code o }
{
    match o {
        Outcome::Settled(v) => verdict_number(v),
        Outcome::Refused(_) => 4,
    }
}

/// A refusal as one number: its number + 256 times its place.
pub fn refusal_code(why: Refusal) -> u64
    ensures { result ≡ refusal_code why.number why.place }
{
    u64::from(why.number) + 256 * u64::from(why.place)
}

/// 0 where nothing is refused.
pub fn outcome_code(outcome: Outcome) -> u64
    ensures { result ≡ outcome_code outcome }
{
    match outcome {
        Outcome::Settled(_) => 0,
        Outcome::Refused(why) => refusal_code(why),
    }
}
