// The text as a table: ids increase, and sorts and other names are unbounded in number, so what an id stands for is read off the line that
// has it.
ghost use Rattle.std.specs.Prelude.{◌≡◌, ◌≤◌, length, take, eqb};
ghost use Rattle.texts.specs.Numbers.{value_in};
ghost use Rattle.lines.specs.Lines.{lines, tokens};
ghost use Rattle.lines.specs.inner.Told.{id_of, find_line, small, narrow, width_told, is_alias, alias_of};

use crate::format::is_signed;
use crate::keyword;
use crate::table::number_of;
use crate::tokens::token_walk;
use texts::{Class, run_end, value_in};

// Numbers and ids here are 0 where there is none: so `small_of_determined`, `width_told_determined` and `alias_of_determined` have them, and no
// line has the id 0, no sort the width 0.

// The number that digits say, and 0 where 64 bits do not hold it.
#[tactic(auto, unfolding(crate::specs::inner::Told::small, texts::specs::Numbers::numbered))]
pub fn small_of(t: &[u8]) -> u64
    ensures { result ≡ small (value_in 10 t.now) }
{
    value_in(t, 10).unwrap_or(0)
}

// Whether a line has an id.
#[tactic(auto, unfolding(crate::specs::inner::Told::id_of, texts::specs::Numbers::numbered))]
fn has_id(line: &[u8], id: u64) -> bool
    ensures { result ≡ eqb (id_of (tokens line.now)) id }
{
    value_in(token_walk(line, 0), 10) == Some(id)
}

// The line with an id among so many first lines of a text; an empty one where there is none.
// (Empty, as `find_line` has it.)
pub fn line_of(text: &[u8], passed: usize, id: u64) -> &[u8]
    ensures { result.now ≡ find_line id (take passed (lines text.now)) }
{
    let mut at = 0;
    for i in 0..passed {
        let end = run_end(text, at, Class::Line);
        let line = &text[at..end];
        if has_id(line, id) {
            return line;
        }
        if end == text.len() {
            return &text[end..end];
        }
        at = end + 1;
    }
    &text[at..at]
}

// The width that a sort's line tells; 0 for one that no sort has, and for another line.
#[tactic(auto, unfolding(crate::specs::inner::Told::width_told, crate::specs::inner::Told::narrow, crate::specs::inner::Told::small))]
pub fn width_told(line: &[u8]) -> u8
    ensures { result ≡ width_told (tokens line.now) }
{
    if number_of(token_walk(line, 1)) != keyword::SORT {
        return 0;
    }
    let width = small_of(token_walk(line, 3));
    if width < 65 { width as u8 } else { 0 }
}

// Whether a line only gives another name: an extension by 0 of a positive reference.
#[tactic(auto, unfolding(crate::specs::inner::Told::is_alias, texts::specs::Numbers::numbered))]
fn is_alias(line: &[u8]) -> bool
    ensures { result ≡ is_alias (tokens line.now) }
{
    let word = number_of(token_walk(line, 1));
    matches!(word, keyword::UEXT | keyword::SEXT)
        && value_in(token_walk(line, 4), 10) == Some(0)
        && !is_signed(token_walk(line, 3))
}

// The line of which a line is another name; 0 where it is none.
#[tactic(auto, unfolding(crate::specs::inner::Told::alias_of))]
pub fn alias_of(line: &[u8]) -> u64
    ensures { result ≡ alias_of (tokens line.now) }
{
    if is_alias(line) {
        small_of(token_walk(line, 3))
    } else {
        0
    }
}
