// Many starts of one problem, as numbers.
ghost use Rattle.walumpeh.specs.Batches.{BatchCode};

use crate::codes::checked_code;

// The refusal of the whole call, its number + 256 times its place, 0 where nothing is refused; then answers take six words for each
// start: its refusal, verdict, moves, steps, words and nodes evaluated. 255 where answers have fewer places: then nothing is done.
// (Its parameters are those of the C interface.)
#[unsafe(no_mangle)]
pub extern "C" fn wal_batch(
    problem: &[u8],
    starts: u64,
    values: &mut [u64],
    tape: &[u64],
    lengths: &[u64],
    budgets: &[u16],
    answers: &mut [u64],
) -> u64
    ensures { BatchCode problem.now starts values.old tape.now lengths.now budgets.now answers.old values.new answers.new result }
{
    checked_code(batches::batch(problem, starts, values, tape, lengths, budgets, answers))
}
