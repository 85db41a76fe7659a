// The run of document 01, an entry point: move after move, from the start to a verdict.
#![tactic(auto)]

ghost use Rattle.std.specs.Prelude.{◌≡◌, ◌+◌, ◌*◌, ◌≤◌, ◌<◌, ◌^◌, length};
ghost use Rattle.problem.specs.Layout.{node_count};
ghost use Rattle.nodes.specs.inner.Good.{Held};
ghost use Rattle.nodes.specs.inner.Nodes.{Fills};
ghost use Rattle.evaluation.specs.inner.Readers.{Indexed};
ghost use Rattle.moves.specs.inner.Moves.{prob_in};
ghost use Rattle.search.specs.Call.{refused, Called};
ghost use Rattle.search.specs.inner.Run.{Searched, Unprepared, Prepared, Readied};

mod answers;
mod progress;
mod ready;
mod starts;

pub use answers::{outcome_code, refusal_code, verdict_code};
use evaluation::{evaluate, index_readers};
use moves::{Tape, closed_root, count_unsatisfied, finish_move};
use nodes::{Pairs, fill};
use problem::{Problem, Refusal};
use progress::Progress;
pub use ready::Ready;
use starts::{lent, starts_fault};

/// How a run that is not refused ends.
#[derive(Clone, Copy, Debug, PartialEq, Eq)]
pub enum Verdict {
    Model,
    Spent,
    Ended,
    Closed,
}

/// A refusal with its number and place, or a verdict. (No `Result`: document 01 has it as one enum beside the
/// counts.)
#[derive(Clone, Copy, Debug, PartialEq, Eq)]
pub enum Outcome {
    Refused(Refusal),
    Settled(Verdict),
}

/// What a run answers: its counts beside its outcome.
#[derive(Clone, Copy, Debug, PartialEq, Eq)]
pub struct Answer {
    pub moves: u64,
    pub steps: u64,
    pub words: u64,
    pub evaluated: u64,
    pub outcome: Outcome,
}

impl From<Refusal> for Answer {
    ghost from_gives = { λ why a. a ≡ refused why };

    // A refusal: "has all counts 0".
    fn from(why: Refusal) -> Answer
        ensures { result ≡ refused why }
    {
        Answer {
            moves: 0,
            steps: 0,
            words: 0,
            evaluated: 0,
            outcome: Outcome::Refused(why),
        }
    }
}

// "All roots 1 (also R = 0): verdict model. Else, budget used up: verdict spent. Else make a move and repeat." (A `loop`: a `for` over
// the budget would count the roots once more behind it, for model comes before spent.)
fn search(run: &moves::Prepared, values: &mut [u64], tape: &[u64], budget: u16) -> Answer
    requires held { Held (prob_in run.now) values.old }
    requires indexed { Indexed run.now.pairs.problem.bytes.now run.now.slots.now }
    ensures { Searched run.now.pairs.problem.bytes.now values.old tape.now budget values.new result }
{
    let problem = run.pairs.problem;
    let most = u64::from(budget);
    let mut so_far = Progress::begin(problem.node_count());
    loop {
        let left = count_unsatisfied(problem, values);
        if left == 0 {
            return so_far.settled(Verdict::Model);
        }
        if most <= so_far.moves {
            return so_far.settled(Verdict::Spent);
        }
        let moves = so_far.moves + 1;
        let rest = Tape {
            words: tape,
            at: so_far.next,
        };
        let Some(turn) = finish_move(run, values, rest, left, so_far.steps) else {
            return so_far.settled(Verdict::Ended);
        };
        so_far = Progress {
            moves,
            steps: turn.steps,
            next: turn.next,
            evaluated: so_far.evaluated + turn.above,
        };
    }
}

/// A start, where there is a place for each node: 15, which leaves the places as they were; or all nodes evaluated, and the search.
pub fn run_one(ready: &Ready, values: &mut [u64], tape: &[u64], budget: u16) -> Answer
    requires ready { Readied ready.now }
    requires places { node_count ready.now.pairs.problem.bytes.now ≤ length values.old }
    ensures { Called ready.now.pairs.problem.bytes.now values.old tape.now budget values.new result }
{
    let problem = ready.pairs.problem;
    if let Err(refusal) = starts_fault(problem, values) {
        return Answer::from(refusal);
    }
    evaluate(problem, values);
    if ready.closed {
        return Progress::begin(problem.node_count()).settled(Verdict::Closed);
    }
    let run = moves::Prepared {
        pairs: ready.pairs,
        slots: ready.slots,
    };
    search(&run, values, tape, budget)
}

/// What is worked out of a problem once for all its starts: the pairs and the index of readers, in lent room, and whether a root is
/// fixed at 0.
// (los and his are written here, before `Pairs` holds them.)
pub fn prepare(problem: Problem, los: &mut [u64], his: &mut [u64], slots: &mut [u16]) -> bool
    requires { Unprepared problem.bytes.now los.old his.old slots.old }
    ensures prepared { Prepared problem.entry.bytes.now los.new his.new slots.new result }
    ensures fills { Fills problem.entry.bytes.now los.old his.old los.new his.new }
{
    fill(problem, los, his);
    index_readers(problem, slots);
    closed_root(Pairs { problem, los, his })
}

// A start in room for N nodes, whose index has S slots.
// (A start's parameters are those of `run`, which C's call fixes.)
fn run_in<const N: usize, const S: usize>(
    problem: Problem,
    values: &mut [u64],
    tape: &[u64],
    budget: u16,
) -> Answer
    requires places { node_count problem.bytes.now ≤ length values.old }
    requires room { node_count problem.bytes.now ≤ N }
    requires slots { 4 * N ≡ S }
    requires fits { S < 2 ^ 16 }
    ensures { Called problem.entry.bytes.now values.old tape.now budget values.new result }
{
    let mut los = [0u64; N];
    let mut his = [0u64; N];
    let mut slots = [0u16; S];
    let closed = prepare(problem, &mut los, &mut his, &mut slots);
    let ready = Ready::of(problem, &los, &his, &slots, closed);
    run_one(&ready, values, tape, budget)
}

/// A whole call: a refusal, which leaves every place as it was; or the run. Few nodes have little room: to clear room for 1,024
/// would cost short runs.
pub fn run(problem: &[u8], values: &mut [u64], tape: &[u64], budget: u16) -> Answer
    ensures { Called problem.now values.old tape.now budget values.new result }
{
    let accepted = match lent(problem, values) {
        Ok(accepted) => accepted,
        Err(refusal) => return Answer::from(refusal),
    };
    if accepted.node_count() <= 128 {
        return run_in::<128, 512>(accepted, values, tape, budget);
    }
    run_in::<1024, 4096>(accepted, values, tape, budget)
}
