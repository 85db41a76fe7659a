// The problem check, as a number.
ghost use Rattle.std.specs.Prelude.{◌≡◌};
ghost use Rattle.problem.specs.Refusals.{checked};
ghost use Rattle.walumpeh.specs.Codes.{checked_code};

use crate::codes::checked_code;

// 0 where the problem is accepted, else the refusal's number + 256 times its place.
#[unsafe(no_mangle)]
pub extern "C" fn wal_check(problem: &[u8]) -> u64
    ensures { result ≡ checked_code (checked problem.now) }
{
    checked_code(problem::check(problem))
}
