// The frame bench, as numbers.
ghost use Rattle.walumpeh.specs.Gathers.{GatherCode};

use crate::codes::{TOO_SHORT, checked_code};
use batches::ANSWER_WORDS;

// The refusal's number + 256 times its place, 0 where nothing is refused; out takes how many solutions are kept, how many models are
// repeats and how many are neither, all 0 where refused. 255 where out has fewer than three places, or answers fewer than six for
// each start: then nothing is done. (`as u64`, here and beside a line or a length: no `From` takes a usize into it.)
// (Its parameters are those of the C interface.)
#[unsafe(no_mangle)]
pub extern "C" fn wal_gather(
    problem: &[u8],
    starts: u64,
    values: &mut [u64],
    tape: &[u64],
    lengths: &[u64],
    budgets: &[u16],
    names: &[u16],
    kept: &mut [u64],
    answers: &mut [u64],
    out: &mut [u64],
) -> u64
    ensures { GatherCode problem.now starts values.old tape.now lengths.now budgets.now names.now kept.old answers.old out.old values.new kept.new answers.new out.new result }
{
    if out.len() < 3 {
        return TOO_SHORT;
    }
    if ((answers.len() / ANSWER_WORDS) as u64) < starts {
        return TOO_SHORT;
    }
    let gathered = frames::gather(
        problem, starts, values, tape, lengths, budgets, names, kept, answers,
    );
    let found = gathered.found;
    out[0] = gathered.kept;
    out[1] = gathered.repeats;
    out[2] = gathered.unkept;
    checked_code(found)
}
