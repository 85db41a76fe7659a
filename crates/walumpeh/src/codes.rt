// What every call but the two picks answers: 0 where nothing is refused, else the refusal's number + 256 times its place.
ghost use Rattle.std.specs.Prelude.{◌≡◌};
ghost use Rattle.walumpeh.specs.Codes.{checked_code, long_code, judged_code, converted_code};

use btor2::Converted;
use models::Judged;
use problem::Refusal;
use search::refusal_code;

// Answered, before anything is done, where an array lent for the answer is too short. Of refusals only `Fault::Answers` has this number,
// which says the same.
pub(crate) const TOO_SHORT: u64 = 255;

pub(crate) fn checked_code(answer: Result<(), Refusal>) -> u64
    ensures { result ≡ checked_code answer }
{
    answer.err().map_or(0, |why| refusal_code(why))
}

// The last place that 56 bits hold.
const LAST_PLACE: u64 = (1 << 56) - 1;

// An entry's position, or a line, may have more than the 56 bits above the number: the last of them stands for it then.
fn long_code(number: u8, place: u64) -> u64
    ensures { result ≡ long_code number place }
{
    u64::from(number) + 256 * place.min(LAST_PLACE)
}

pub(crate) fn judged_code(said: Judged) -> u64
    ensures { result ≡ judged_code said }
{
    match said {
        Judged::Yes | Judged::No(_) => 0,
        Judged::Refused(why) => long_code(why.number, why.place),
    }
}

pub(crate) fn converted_code(answer: Converted) -> u64
    ensures { result ≡ converted_code answer }
{
    answer
        .err()
        .map_or(0, |why| long_code(why.fault.number(), why.line as u64))
}
