// The run, as numbers.
ghost use Rattle.std.specs.Prelude.{◌≡◌, ◌≤◌, length};
ghost use Rattle.walumpeh.specs.Runs.{counted, reported, RunCode};

use crate::codes::TOO_SHORT;
use search::{Answer, outcome_code, verdict_code};

// The verdict and the counts, stored in the first places of out: one by one, as `reported` lists them.
fn report(a: Answer, out: &mut [u64])
    requires { counted ≤ length out.old }
    ensures { out.new ≡ reported out.old a }
{
    let outcome = a.outcome;
    let verdict = verdict_code(outcome);
    out[0] = verdict;
    out[1] = a.moves;
    out[2] = a.steps;
    out[3] = a.words;
    out[4] = a.evaluated;
}

// A whole run: the refusal's number + 256 times its place, 0 where nothing is refused; out takes the verdict, moves, steps,
// words and nodes evaluated. 255 where out has fewer than five places: then nothing is run.
#[unsafe(no_mangle)]
pub extern "C" fn wal_run(
    problem: &[u8],
    values: &mut [u64],
    tape: &[u64],
    budget: u16,
    out: &mut [u64],
) -> u64
    ensures { RunCode problem.now values.old tape.now budget out.old values.new out.new result }
{
    if out.len() < 5 {
        return TOO_SHORT;
    }
    let answer = search::run(problem, values, tape, budget);
    let outcome = answer.outcome;
    report(answer, out);
    outcome_code(outcome)
}
