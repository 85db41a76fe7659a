// Our word for another solver's model, as numbers.
ghost use Rattle.std.specs.Prelude.{◌≡◌};
ghost use Rattle.models.specs.Answers.{yes_of, root_of};
ghost use Rattle.walumpeh.specs.Judgements.{ModelCode};

use crate::codes::{TOO_SHORT, judged_code};
use models::Judged;

// 1 for yes, and 0 otherwise.
fn yes_number(said: Judged) -> u64
    ensures { result ≡ yes_of said }
{
    u64::from(matches!(said, Judged::Yes))
}

// The first root that is 0, by its position; 0 where there is none.
fn root_number(said: Judged) -> u64
    ensures { result ≡ root_of said }
{
    match said {
        Judged::No(root) => u64::from(root),
        Judged::Yes | Judged::Refused(_) => 0,
    }
}

// The refusal's number + 256 times its place, 0 where nothing is refused; out takes 1 for yes and 0 otherwise, and the first root
// that is 0. 255 where out has fewer than two places: then nothing is done.
#[unsafe(no_mangle)]
pub extern "C" fn wal_model(problem: &[u8], names: &[u8], text: &[u8], out: &mut [u64]) -> u64
    ensures { ModelCode problem.now names.now text.now out.old out.new result }
{
    if out.len() < 2 {
        return TOO_SHORT;
    }
    let said = models::judge(problem, names, text);
    let yes = yes_number(said);
    let root = root_number(said);
    out[0] = yes;
    out[1] = root;
    judged_code(said)
}
