// BTOR2 converted to problem bytes, as numbers.
ghost use Rattle.std.specs.Prelude.{◌≡◌};
ghost use Rattle.btor2.specs.Answer.{length_of};
ghost use Rattle.walumpeh.specs.Conversions.{ConversionCode};

use crate::codes::{TOO_SHORT, converted_code};
use btor2::Converted;

// How many bytes were written; 0 where the text is refused.
fn length_number(answer: Converted) -> u64
    ensures { result ≡ length_of answer }
{
    answer.unwrap_or(0) as u64
}

// The refusal's number + 256 times its line, 0 where nothing is refused; problem takes the bytes and out how many they are. 255 where
// out has no place: then nothing is done.
#[unsafe(no_mangle)]
pub extern "C" fn wal_btor2(text: &[u8], problem: &mut [u8], out: &mut [u64]) -> u64
    ensures { ConversionCode text.now problem.old out.old problem.new out.new result }
{
    if out.is_empty() {
        return TOO_SHORT;
    }
    let answer = btor2::convert(text, problem);
    out[0] = length_number(answer);
    converted_code(answer)
}
