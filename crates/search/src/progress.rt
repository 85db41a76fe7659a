// How far a run has come.
ghost use Rattle.std.specs.Prelude.{◌≡◌, ◌+◌, ◌*◌};
ghost use Rattle.search.specs.Run.{answer};

use crate::{Answer, Outcome, Verdict};

/// The moves and steps made so far, the next place on the tape, and the nodes evaluated.
#[derive(Clone, Copy, Debug, PartialEq, Eq)]
pub(crate) struct Progress {
    pub moves: u64,
    pub steps: u64,
    pub next: usize,
    pub evaluated: u64,
}

impl Progress {
    // Before the first move, after all nodes were evaluated.
    pub(crate) fn begin(nodes: u16) -> Progress
        ensures { result ≡ record { moves = 0; steps = 0; next = 0; evaluated = nodes } }
    {
        Progress {
            moves: 0,
            steps: 0,
            next: 0,
            evaluated: u64::from(nodes),
        }
    }

    // The answer of a run that ends here.
    pub(crate) fn settled(self, verdict: Verdict) -> Answer
        requires { self.next ≡ self.moves + 2 * self.steps }
        ensures { result ≡ answer self.moves self.steps self.evaluated verdict }
    {
        Answer {
            moves: self.moves,
            steps: self.steps,
            words: self.next as u64,
            evaluated: self.evaluated,
            outcome: Outcome::Settled(verdict),
        }
    }
}
