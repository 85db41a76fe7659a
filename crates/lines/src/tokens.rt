// The tokens of a line.
// (A line and a place in it are two parameters: what is answered is a place of the same line, so a view would be taken apart at each call.)
ghost use Rattle.std.specs.Prelude.{◌≡◌, [], ◌+◌, ◌≤◌, ◌<◌, length, get_or, drop};
ghost use Rattle.lines.specs.Lines.{tokens, token};
ghost use Rattle.lines.specs.inner.Places.{token_length, past, After, MarkedAt, Marked, Stored};

use texts::{Class, byte_at, run_end};

// Where the token that begins at a place ends; that place itself where a comment begins or the line ends.
#[tactic(auto, using(crate::specs::laws::Line::end_comment, crate::specs::laws::Line::end_run))]
fn token_end(line: &[u8], from: usize) -> usize
    requires { from ≤ length line.now }
    ensures { result ≡ from + token_length (drop from line.now) }
{
    if byte_at(line, from) == b';' {
        from
    } else {
        run_end(line, from, Class::Solid)
    }
}

// The place after a token between two places of a line of so many bytes: the line's end where the token is empty, for then there is none.
#[tactic(auto, unfolding(crate::specs::inner::Places::past))]
fn past_token(from: usize, end: usize, size: usize) -> usize
    ensures { result ≡ past from end size }
{
    if end == from { size } else { end }
}

// The first token from a place on; empty where there is none.
// (Empty and no Option, here and below, as `token` has it: no token is empty.)
fn first_token(line: &[u8], at: usize) -> &[u8]
    requires { at ≤ length line.now }
    ensures { result.now ≡ get_or (tokens (drop at line.now)) 0 [] }
{
    let from = run_end(line, at, Class::Blank);
    let end = token_end(line, from);
    &line[from..end]
}

// The place after that token.
fn after_token(line: &[u8], at: usize) -> usize
    requires { at ≤ length line.now }
    ensures { After line.now at result }
{
    let from = run_end(line, at, Class::Blank);
    let end = token_end(line, from);
    past_token(from, end, line.len())
}

// Where token k begins and ends, stored at places 2k and 2k + 1, from a place on that the tokens before it leave; answers the place after it.
fn mark_token(line: &[u8], at: usize, marks: &mut [usize], k: usize) -> usize
    requires { (at ≤ length line.now) × (k < 12) × (length marks.old ≡ 24) }
    ensures { MarkedAt line.now at k marks.old marks.new result }
{
    let from = run_end(line, at, Class::Blank);
    let end = token_end(line, from);
    marks[2 * k] = from;
    marks[2 * k + 1] = end;
    past_token(from, end, line.len())
}

// Where the first 12 tokens of a line begin and end: no line of the format has more. One that is missing is empty.
// (A line and marks: they are written here, and no marked line is asked for; `MarkedLine` holds them after.)
pub fn mark_tokens(line: &[u8], marks: &mut [usize])
    requires { length marks.old ≡ 24 }
    ensures { Stored line.now marks.old marks.new }
{
    let mut at = 0;
    for k in 0..12 {
        at = mark_token(line, at, marks, k);
    }
}

/// A line with the places where its first 12 tokens begin and end, as `mark_tokens` stores them.
// (A view of a lent line is never compared: so no `PartialEq`.)
// (Two lifetimes: a token is of the text, and outlives the marks.)
#[derive(Clone, Copy, Debug)]
pub struct MarkedLine<'t, 'm> {
    pub text: &'t [u8],
    pub marks: &'m [usize],
    ghost marked: { Marked text.now 12 marks.now },
}

impl<'t, 'm> MarkedLine<'t, 'm> {
    /// Token k, empty where there is none.
    pub fn token_at(self, k: u8) -> &'t [u8]
        requires { k < 12 }
        ensures { result.now ≡ token (tokens self.entry.text.now) k }
    {
        let i = 2 * usize::from(k);
        &self.text[self.marks[i]..self.marks[i + 1]]
    }
}

// Token k of a line that is read but once; empty where there is none.
#[tactic(auto, using(crate::specs::laws::Line::token_starts, crate::specs::laws::Line::token_turn, crate::specs::laws::Line::token_found))]
pub fn token_walk(line: &[u8], k: u8) -> &[u8]
    ensures { result.now ≡ token (tokens line.now) k }
{
    let mut at = 0;
    for i in 0..k {
        at = after_token(line, at);
    }
    first_token(line, at)
}
