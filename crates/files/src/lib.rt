// What `tvrun` does between reading its files and writing its answer: the words of a file, the budget and the tape, and the lines of
// an answer.
#![tactic(auto)]

ghost use Rattle.std.specs.Prelude.{◌≡◌, take};
ghost use Rattle.files.specs.Words.{file_words};
ghost use Rattle.files.specs.inner.Told.{Told};
ghost use Rattle.files.specs.Told.{Prints};

mod lines;
mod numbers;
mod text;

use lines::text_of;
pub use numbers::{budget_of, tape_of, words_of};
use search::run;

/// "`problem.tbv` (at most 25,098 bytes of it)": one more than the longest that is accepted.
pub const PROBLEM_ROOM: usize = 25098;

/// The bytes of 1,024 words: `start.bin`'s "at most 1,024", and of `tape.bin` the budget and "up to 1,023 further words".
pub const WORDS_ROOM: usize = 8192;

/// Room for the longest text (specs/laws/Whole).
pub const TEXT_ROOM: usize = 43104;

// Runs the problem from the values lent, with the words of `tape.bin`, and puts the answer's lines at the start of out.
fn tell(problem: &[u8], values: &mut [u64], words: &[u64], out: &mut [u8]) -> usize
    ensures { Told problem.now values.old words.now out.old out.new result }
{
    let answer = run(problem, values, tape_of(words), budget_of(words));
    text_of(problem, values, answer, out)
}

// The same from the bytes of the two files of words.
fn tell_files(problem: &[u8], start: &[u8], tape: &[u8], out: &mut [u8]) -> usize
    ensures { Told problem.now (file_words start.now) (file_words tape.now) out.old out.new result }
{
    let mut values = [0u64; 1024];
    let lent = words_of(start, &mut values);
    let mut words = [0u64; 1024];
    let got = words_of(tape, &mut words);
    tell(problem, &mut values[..lent], &words[..got], out)
}

// The first n bytes, all of them where there are no more.
fn front(s: &[u8], n: usize) -> &[u8]
    ensures { result.now ≡ take n s.now }
{
    &s[..n.min(s.len())]
}

/// Puts what `tvrun` prints, from what was read of its three files (so many bytes of each), at the start of out, and answers how
/// many bytes that is. The whole text has room.
// (Arrays with their lengths beside them, 7 parameters: `Prints` and `output_determined` speak of the places that were read into.)
pub fn output(
    problem: &[u8; PROBLEM_ROOM],
    p: usize,
    start: &[u8; WORDS_ROOM],
    s: usize,
    tape: &[u8; WORDS_ROOM],
    t: usize,
    out: &mut [u8; TEXT_ROOM],
) -> usize
    ensures { Prints problem.now p start.now s tape.now t out.old out.new result }
{
    tell_files(front(problem, p), front(start, s), front(tape, t), out)
}
