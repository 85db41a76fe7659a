// The words of `start.bin` and `tape.bin`, and what the latter's mean.
ghost use Rattle.std.specs.Prelude.{◌≡◌};
ghost use Rattle.files.specs.Laid.{Laid};
ghost use Rattle.files.specs.Words.{words_of, budget_of, tape_of};

use problem::u64_at;

/// Puts the bytes' words at the start of into, as many as there are and as fit, and answers how many.
// (By number: the count is wanted anyway, and `u64_at` reads at a place.)
pub fn words_of(bytes: &[u8], into: &mut [u64]) -> usize
    ensures { Laid (words_of bytes.now) 0 into.old into.new result }
{
    let count = (bytes.len() / 8).min(into.len());
    for i in 0..count {
        into[i] = u64_at(bytes, 8 * i);
    }
    count
}

/// The budget that the words of `tape.bin` hold.
#[tactic(auto, unfolding(crate::specs::Words::budget_of))]
pub fn budget_of(words: &[u64]) -> u16
    ensures { result ≡ budget_of words.now }
{
    (words.first().copied().unwrap_or(0) % 65536) as u16
}

/// The tape that the words of `tape.bin` hold.
#[tactic(auto, unfolding(crate::specs::Words::tape_of))]
pub fn tape_of(words: &[u64]) -> &[u64]
    ensures { result.now ≡ tape_of words.now }
{
    words.get(1..).unwrap_or(&[])
}
