// How long a tape is needed, as numbers.
ghost use Rattle.walumpeh.specs.Needs.{NeedCode};

use crate::codes::{TOO_SHORT, checked_code};

// The refusal's number + 256 times its place, 0 where nothing is refused; out takes H and the number of words, both 0 where
// refused. 255 where out has fewer than two places: then nothing is done.
#[unsafe(no_mangle)]
pub extern "C" fn wal_need(problem: &[u8], budget: u16, out: &mut [u64]) -> u64
    ensures { NeedCode problem.now budget out.old out.new result }
{
    if out.len() < 2 {
        return TOO_SHORT;
    }
    let need = tapes::need(problem, budget);
    let found = need.found;
    out[0] = need.h;
    out[1] = need.words;
    checked_code(found)
}
