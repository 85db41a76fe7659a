// A shuffled problem put in order, its answer as a number.
ghost use Rattle.walumpeh.specs.Mends.{MendCode};

use crate::codes::checked_code;

// The refusal's number + 256 times its place, 0 where nothing is refused: then mended begins with the problem in order, and map with
// the old id of each new one. Refused, both stay as they were.
#[unsafe(no_mangle)]
pub extern "C" fn wal_mend(problem: &[u8], mended: &mut [u8], map: &mut [u16]) -> u64
    ensures { MendCode problem.now mended.old map.old mended.new map.new result }
{
    checked_code(mending::mend(problem, mended, map))
}
