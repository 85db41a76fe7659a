// What the starts of a problem made, as a view: N values and an answer's six words for each.
ghost use Rattle.std.specs.Prelude.{◌*◌, ◌≤◌, length};
ghost use Rattle.problem.specs.Layout.{node_count};
ghost use Rattle.search.specs.Answers.{answer_words};

use batches::ANSWER_WORDS;
use problem::node_count;
use search::{Outcome, Verdict, verdict_code};

#[derive(Clone, Copy, Debug)]
pub(crate) struct Made<'a> {
    pub problem: &'a [u8],
    pub starts: usize,
    pub values: &'a [u64],
    pub answers: &'a [u64],
    ghost few: { starts ≤ 256 },
    ghost values_there: { starts * node_count problem.now ≤ length values.now },
    ghost answers_there: { starts * answer_words ≤ length answers.now },
}

impl<'a> Made<'a> {
    ghost use Rattle.std.specs.Prelude.{◌≡◌, ◌<◌};
    ghost use Rattle.words.specs.inner.Decides.{Decides};
    ghost use Rattle.batches.specs.Batch.{places};
    ghost use Rattle.frames.specs.Bench.{Modelled};

    // Whether start k's verdict, the second word of its answer, is model.
    pub(crate) fn is_model(self, k: usize) -> bool
        requires { k < self.starts }
        ensures { Decides (Modelled self.entry.answers.now k) result }
    {
        self.answers[k * ANSWER_WORDS + 1] == verdict_code(Outcome::Settled(Verdict::Model))
    }

    // Start k's values.
    pub(crate) fn solution(self, k: usize) -> &'a [u64]
        requires { k < self.starts }
        ensures { result.now ≡ places self.entry.problem.now k self.entry.values.now }
    {
        let n = usize::from(node_count(self.problem));
        &self.values[k * n..k * n + n]
    }
}
