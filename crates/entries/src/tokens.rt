// The tokens of a text: where a piece of it ends, where the next token is, and what stands there.
// (A text and a place in it are two parameters here: what is answered is a place of the same text, so a view would be taken apart and made
// again at each call.)
ghost use Rattle.std.specs.Prelude.{◌≡◌, ◌+◌, ◌<◌, ◌≤◌, min, true, [], length, drop, slice_index, slice_index_or};
ghost use Rattle.texts.specs.Runs.{is_in, length_of_run};
ghost use Rattle.entries.specs.Tokens.{is_gap, piece_length, tokens};
ghost use Rattle.entries.specs.inner.Places.{Skipped, After};

use texts::{Class, byte_at, is_in, is_white, run_end};

// The place after the quoted symbol that begins at a place, or the text's end where it has no second bar.
#[tactic(auto, using(crate::specs::laws::Tokens::bars_next, texts::specs::laws::Runs::run_inside))]
fn bars_end(text: &[u8], at: usize) -> usize
    requires { at + 1 ≤ length text.now }
    ensures { result ≡ min (at + (2 + length_of_run (is_in Class.Bars) (drop 1 (drop at text.now)))) (length text.now) }
{
    let end = run_end(text, at + 1, Class::Bars);
    text.len().min(end + 1)
}

// The place after the piece that begins at a place: a comment, a quoted symbol, a bare token, or a byte by itself.
#[tactic(auto, using(crate::specs::laws::Tokens::ends_comment, crate::specs::laws::Tokens::ends_quoted, crate::specs::laws::Tokens::ends_bare, crate::specs::laws::Tokens::ends_byte))]
pub(crate) fn piece_end(text: &[u8], at: usize) -> usize
    requires { at ≤ length text.now }
    ensures { result ≡ min (at + piece_length (drop at text.now)) (length text.now) }
{
    match byte_at(text, at) {
        b';' => run_end(text, at, Class::Comment),
        b'|' => bars_end(text, at),
        b if is_in(Class::Bare, b) => run_end(text, at, Class::Bare),
        _ => at + 1,
    }
}

#[tactic(auto, unfolding(crate::specs::Tokens::is_gap))]
fn is_gap(b: u8) -> bool
    ensures { result ≡ is_gap b }
{
    is_white(b) || b == b';'
}

// The place after the gap that begins at a place: a comment, or one byte of white space.
fn gap_end(text: &[u8], at: usize) -> usize
    requires { (at < length text.now) × (is_gap (slice_index text.now at) ≡ true) }
    ensures { result ≡ min (at + piece_length (drop at text.now)) (length text.now) }
{
    if text[at] == b';' {
        return run_end(text, at, Class::Comment);
    }
    at + 1
}

// The place of the next token: white space and comments are passed over. A comment is passed in one step, so no range of places
// serves.
pub(crate) fn skip(text: &[u8], at: usize) -> usize
    requires { at ≤ length text.now }
    ensures { Skipped text.now at result }
{
    let mut place = at;
    while place < text.len() && is_gap(text[place]) {
        place = gap_end(text, place);
    }
    place
}

// The first token from a place on; empty where there is none.
// (Empty and no Option, here and below, as the definitions read past the last: no token is empty.)
pub(crate) fn first_token(text: &[u8], at: usize) -> &[u8]
    requires { at ≤ length text.now }
    ensures { result.now ≡ slice_index_or (tokens (drop at text.now)) 0 [] }
{
    let from = skip(text, at);
    let end = piece_end(text, from);
    &text[from..end]
}

// The place after that token; the text's end where there is none.
fn after_token(text: &[u8], at: usize) -> usize
    requires { at ≤ length text.now }
    ensures { After text.now at 1 result }
{
    piece_end(text, skip(text, at))
}

// The place after n tokens.
pub(crate) fn after(text: &[u8], at: usize, n: u8) -> usize
    requires { at ≤ length text.now }
    ensures { After text.now at n result }
{
    let mut place = at;
    for i in 0..n {
        place = after_token(text, place);
    }
    place
}

// Token k from a place on; empty where there is none.
pub(crate) fn token(text: &[u8], at: usize, k: u8) -> &[u8]
    requires { at ≤ length text.now }
    ensures { result.now ≡ slice_index_or (tokens (drop at text.now)) k [] }
{
    first_token(text, after(text, at, k))
}
