// Many starts of one problem, an entry point: refusals of the call, and each start's run on its own places and its own stretch of
// the tape.
#![tactic(auto)]

ghost use Rattle.std.specs.Prelude.{◌≡◌, ◌≤◌, ltb, length};
ghost use Rattle.problem.specs.Refusals.{◌then◌};
ghost use Rattle.batches.specs.Batch.{sum, tape_fault, room_fault, batch_refusals, Starts, Batch};
ghost use Rattle.search.specs.Answers.{answer_words, told};
ghost use Rattle.batches.specs.promises.Accepted.{Enough};

use problem::{Fault, Problem, Refusal, check, line, node_count, refuse_if};
use search::{Answer, Ready, outcome_code, prepare, run_one, verdict_code};

/// The words of an answer.
pub const ANSWER_WORDS: usize = 6;

// 18: the sum of the lengths exceeds the tape. Each is taken from what is left of the tape, for their sum may pass every word.
#[tactic(auto, using(crate::proofs::Many::left_all, crate::proofs::Many::left_more, crate::proofs::Many::left_enough))]
fn tape_short(tape: &[u64], lengths: &[u64]) -> bool
    ensures { result ≡ ltb (length tape.now) (sum lengths.now) }
{
    let mut left = tape.len() as u64;
    for &length in lengths {
        if left < length {
            return true;
        }
        left -= length;
    }
    false
}

// 18, then 19.
#[tactic(auto, unfolding(crate::specs::Batch::tape_fault, crate::specs::Batch::room_fault, problem::specs::Refusals::first_of))]
fn lent_short(
    problem: &[u8],
    starts: u64,
    values: &[u64],
    tape: &[u64],
    lengths: &[u64],
) -> Result<(), Refusal>
    requires { starts ≤ 256 }
    ensures { result ≡ (tape_fault tape.now lengths.now then room_fault problem.now starts values.now) }
{
    refuse_if(tape_short(tape, lengths), Fault::Tape, 0)?;
    let few = (values.len() as u64) < starts * u64::from(node_count(problem));
    refuse_if(few, Fault::Room, 0)
}

/// The first refusal of a whole call, or that there is none; nothing is run.
// (Seven parameters: those of C's call, of which `batch_refusals` speaks one by one. 17 is a line of the check's table, so that what the
// check tells first stays first by `line`'s own promise.)
#[tactic(auto, using(crate::proofs::Many::short_same), unfolding(crate::specs::Batch::batch_refusals, crate::specs::Batch::answers_fault, crate::specs::Batch::lists_fault, problem::specs::Refusals::first_of))]
pub fn batch_refusal(
    problem: &[u8],
    starts: u64,
    values: &[u64],
    tape: &[u64],
    lengths: &[u64],
    budgets: &[u16],
    answers: &[u64],
) -> Result<(), Refusal>
    ensures { result ≡ batch_refusals problem.now starts values.now tape.now lengths.now budgets.now answers.now }
{
    refuse_if(
        ((answers.len() / ANSWER_WORDS) as u64) < starts,
        Fault::Answers,
        0,
    )?;
    let uneven = (256 < starts)
        | (lengths.len() as u64 != starts)
        | (budgets.len() as u64 != starts);
    line(check(problem), Fault::Starts.number(), uneven, 0)?;
    lent_short(problem, starts, values, tape, lengths)
}

// An answer as words.
fn tell(a: Answer, out: &mut [u64])
    requires { length out.old ≡ answer_words }
    ensures { out.new ≡ told a }
{
    out.copy_from_slice(&[
        outcome_code(a.outcome),
        verdict_code(a.outcome),
        a.moves,
        a.steps,
        a.words,
        a.evaluated,
    ]);
}

/// All starts of a call that is not refused, in turn: each on its own places and the words of its stretch, and its answer in its own
/// six places. What they share is worked out once, in room for 1,024 nodes. (By number, and not by chunks of N places: N may be 0.)
// (Seven parameters: those of C's call, of which `Enough` and `Starts` speak one by one.)
pub fn run_starts(
    problem: &[u8],
    starts: u64,
    values: &mut [u64],
    tape: &[u64],
    lengths: &[u64],
    budgets: &[u16],
    answers: &mut [u64],
)
    requires { Enough problem.now starts values.old tape.now lengths.now budgets.now answers.old }
    ensures { Starts problem.now starts values.old tape.now lengths.now budgets.now answers.old values.new answers.new }
{
    let mut los = [0u64; 1024];
    let mut his = [0u64; 1024];
    let mut slots = [0u16; 4096];
    let accepted = Problem { bytes: problem };
    let closed = prepare(accepted, &mut los, &mut his, &mut slots);
    let ready = Ready::of(accepted, &los, &his, &slots, closed);
    let n = usize::from(accepted.node_count());
    let mut from: usize = 0;
    for k in 0..starts as usize {
        let to = from + lengths[k] as usize;
        let places = &mut values[k * n..k * n + n];
        let answer = run_one(&ready, places, &tape[from..to], budgets[k]);
        tell(
            answer,
            &mut answers[k * ANSWER_WORDS..k * ANSWER_WORDS + ANSWER_WORDS],
        );
        from = to;
    }
}

/// "Answers and values equal those of single runs, one after the other": a refusal of the whole call, which leaves every place as it
/// was; or every start's answer as six words, its refusal, verdict, moves, steps, words and nodes evaluated. (Seven parameters: those
/// of the C interface.)
pub fn batch(
    problem: &[u8],
    starts: u64,
    values: &mut [u64],
    tape: &[u64],
    lengths: &[u64],
    budgets: &[u16],
    answers: &mut [u64],
) -> Result<(), Refusal>
    ensures { Batch problem.now starts values.old tape.now lengths.now budgets.now answers.old values.new answers.new result }
{
    batch_refusal(problem, starts, values, tape, lengths, budgets, answers)?;
    run_starts(problem, starts, values, tape, lengths, budgets, answers);
    Ok(())
}
