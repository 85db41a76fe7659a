// Checking another solver's model: the problem, a list of names and a get-model answer in SMT-LIB syntax in; yes, the first root
// that is 0, or a refusal out.
#![tactic(auto)]

ghost use Rattle.std.specs.Prelude.{◌≡◌};
ghost use Rattle.models.specs.Judgement.{judged};

mod judging;
mod reason;
mod variables;

use judging::judge_bytes;
use problem::Refusal;

/// A refusal's number, and its place: an entry's position, a node's id, a root's position, or 0.
// (By number, as callers are told it; `problem::Refusal` has 16 bits for the place, and an entry's position may need more.)
#[derive(Clone, Copy, Debug, PartialEq, Eq)]
pub struct Fault {
    pub number: u8,
    pub place: u64,
}

impl From<Refusal> for Fault {
    ghost use Rattle.std.specs.Prelude.{◌≡◌};

    ghost from_gives = { λ r f. f ≡ record { number = r.number; place = r.place } };

    fn from(refusal: Refusal) -> Fault {
        Fault {
            number: refusal.number,
            place: u64::from(refusal.place),
        }
    }
}

/// Our word for another solver's values: all roots are 1; the first root that is 0, by its position; or a refusal.
// (No Option in a `Result`: `judged`, which `judge` promises, names these three.)
#[derive(Clone, Copy, Debug, PartialEq, Eq)]
pub enum Judged {
    Yes,
    No(u16),
    Refused(Fault),
}

/// The judgement of a get-model answer, by the names of the problem's variables.
pub fn judge(problem: &[u8], names: &[u8], text: &[u8]) -> Judged
    ensures { result ≡ judged problem.now names.now text.now }
{
    match judge_bytes(problem, names, text) {
        Ok(None) => Judged::Yes,
        Ok(Some(root)) => Judged::No(root),
        Err(fault) => Judged::Refused(fault),
    }
}
