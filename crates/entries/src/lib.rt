// A get-model answer, read: its tokens, the names of the lent list, and its entries: `(`, perhaps `model`, then
// `(define-fun NAME () (_ BitVec W) VALUE)` each, then `)`. What is said of an entry is the judgement's.
#![tactic(auto)]

ghost use Rattle.std.specs.Prelude.{◌≡◌, ◌<◌, ◌≤◌, [], length, drop, ◌==◌, slice_index_or};
ghost use Rattle.texts.specs.Numbers.{numbered};
ghost use Rattle.entries.specs.Tokens.{tokens};
ghost use Rattle.entries.specs.Entries.{width_said, fits as fitting, value_width, value_said, is_model};
ghost use Rattle.entries.specs.Names.{inside as inside_of};
ghost use Rattle.entries.specs.inner.Places.{form, PassedBy, EntryAt, item_said, Begins, Ends};

mod list;
mod names;
mod numbers;
mod tokens;

pub use list::{NameIndex, NameList};
pub use names::read_names;
use names::{inside, is_name};
use numbers::{base_of, beyond, is_decimal, literal_width, width_said};
use problem::over_width;
use texts::{same, value_in};
use tokens::{after, first_token, piece_end, skip, token};

// What stands at one place of an entry.
#[derive(Clone, Copy, Debug, PartialEq, Eq)]
pub enum Slot {
    Opens,
    Closes,
    Define,
    Index,
    Sort,
    Name,
    Width,
    Literal,
    Decimal,
}

// `(define-fun NAME () (_ BitVec W)`, then `#b.. )` or `#x.. )`, or `(_ bvN w))`.
const FORM: [Slot; 18] = [
    Slot::Opens,
    Slot::Define,
    Slot::Name,
    Slot::Opens,
    Slot::Closes,
    Slot::Opens,
    Slot::Index,
    Slot::Sort,
    Slot::Width,
    Slot::Closes,
    Slot::Literal,
    Slot::Closes,
    Slot::Opens,
    Slot::Index,
    Slot::Decimal,
    Slot::Width,
    Slot::Closes,
    Slot::Closes,
];

// Whether a token fits where it stands.
#[tactic(auto, unfolding(crate::specs::Entries::fits, texts::specs::Runs::ascii))]
fn fits(slot: Slot, t: &[u8]) -> bool
    ensures { result ≡ fitting slot t.now }
{
    match slot {
        Slot::Opens => same(t, b"("),
        Slot::Closes => same(t, b")"),
        Slot::Define => same(t, b"define-fun"),
        Slot::Index => same(t, b"_"),
        Slot::Sort => same(t, b"BitVec"),
        Slot::Name => is_name(t),
        Slot::Width => 0 < width_said(t),
        Slot::Literal => 0 < literal_width(t),
        Slot::Decimal => is_decimal(t),
    }
}

#[tactic(auto, unfolding(crate::specs::inner::Places::form, crate::specs::Entries::heading, crate::specs::Entries::literal, crate::specs::Entries::decimal))]
fn slot_at(i: usize) -> Slot
    requires { i < 18 }
    ensures { result ≡ slice_index_or form i Slot.Opens }
{
    FORM[i]
}

// The tokens from a place on, held against the slots from the first up to the last: the place after them, where all fit.
// (By number, as `PassedBy` tells the slots.)
fn pass(text: &[u8], at: usize, first: usize, last: usize) -> Option<usize>
    requires { (at ≤ length text.now) × (first ≤ last) × (last ≤ 18) }
    ensures { PassedBy text.now at first last result }
{
    let mut place = at;
    for i in first..last {
        let from = skip(text, place);
        let end = piece_end(text, from);
        if !fits(slot_at(i), &text[from..end]) {
            return None;
        }
        place = end;
    }
    Some(place)
}

// Where the parts of an entry stand: its name, its sort's width, its value; the place after it; and how many tokens it has.
#[derive(Clone, Copy, Debug, PartialEq, Eq)]
pub struct Places {
    pub name: usize,
    pub sort: usize,
    pub value: usize,
    pub end: usize,
    pub size: u8,
}

// The entry that begins at a place, where one does.
pub fn entry_at(text: &[u8], at: usize) -> Option<Places>
    requires { at ≤ length text.now }
    ensures { EntryAt text.now at result }
{
    let name = pass(text, at, 0, 2)?;
    let sort = pass(text, name, 2, 8)?;
    let value = pass(text, sort, 8, 10)?;
    if let Some(end) = pass(text, value, 10, 12) {
        return Some(Places {
            name,
            sort,
            value,
            end,
            size: 12,
        });
    }
    let end = pass(text, value, 12, 18)?;
    Some(Places {
        name,
        sort,
        value,
        end,
        size: 16,
    })
}

// The name that stands at a place, and the width of a sort.
pub fn name_at(text: &[u8], at: usize) -> &[u8]
    requires { at ≤ length text.now }
    ensures { result.now ≡ inside_of (slice_index_or (tokens (drop at text.now)) 0 []) }
{
    inside(first_token(text, at))
}

// (It and `name_at` differ in one call and in what they answer, one line each: no plainer as one.)
fn sort_at(text: &[u8], at: usize) -> u64
    requires { at ≤ length text.now }
    ensures { result ≡ width_said (slice_index_or (tokens (drop at text.now)) 0 []) }
{
    width_said(first_token(text, at))
}

// The value that stands at a place, with its own width.
#[tactic(auto, unfolding(crate::specs::Entries::value_width, crate::specs::Entries::fits))]
fn value_width(text: &[u8], at: usize) -> u64
    requires { at ≤ length text.now }
    ensures { result ≡ value_width (tokens (drop at text.now)) }
{
    let w = literal_width(first_token(text, at));
    if 0 < w {
        return w;
    }
    width_said(token(text, at, 3))
}

#[tactic(auto, using(crate::specs::laws::Numbers::literal_base), unfolding(crate::specs::Entries::value_said, crate::specs::Entries::fits))]
fn value_at(text: &[u8], at: usize) -> Option<u64>
    requires { at ≤ length text.now }
    ensures { result ≡ numbered (value_said (tokens (drop at text.now))) }
{
    let t = first_token(text, at);
    if 0 < literal_width(t) {
        return value_in(beyond(t), base_of(t));
    }
    value_in(beyond(token(text, at, 2)), 10)
}

// The word that the sort and the value at two places give to a variable of so many bits; by `Err`, where they do not fit it (34).
// It is the value itself; 0 where 64 bits do not hold that. (0, and the word also where it does not fit, as `item_said` has it.)
pub fn item_at(text: &[u8], sort: usize, value: usize, w: u8) -> Result<u64, u64>
    requires { (sort ≤ length text.now) × (value ≤ length text.now) }
    ensures { result ≡ item_said text.now sort value w }
{
    let Some(word) = value_at(text, value) else {
        return Err(0);
    };
    let wide = u64::from(w);
    let fits = (sort_at(text, sort) == wide)
        & (value_width(text, value) == wide)
        & !over_width(word, w);
    if fits { Ok(word) } else { Err(word) }
}

// Whether no token is left from a place on.
fn ended(text: &[u8], at: usize) -> bool
    requires { at ≤ length text.now }
    ensures { result ≡ (length (tokens (drop at text.now)) == 0) }
{
    skip(text, at) == text.len()
}

// Where the entries begin: after `(` and perhaps `model`.
// (Each token from the end of the one before: what stands before the first, a long comment perhaps, is passed but once.)
pub fn body_start(text: &[u8]) -> usize
    ensures { Begins text.now result }
{
    let first = after(text, 0, 1);
    if same(token(text, first, 0), b"model") {
        return after(text, first, 1);
    }
    first
}

// Where they end.
// (A `while let`: how many entries there are is not known before.)
fn entries_end(text: &[u8]) -> usize
    ensures { Ends text.now result }
{
    let mut at = body_start(text);
    while let Some(entry) = entry_at(text, at) {
        at = entry.end;
    }
    at
}

// 31: whether a text is a get-model answer.
pub fn is_model(text: &[u8]) -> bool
    ensures { result ≡ is_model text.now }
{
    let end = entries_end(text);
    let last = after(text, end, 1);
    let opened = same(token(text, 0, 0), b"(");
    let closed = same(token(text, end, 0), b")");
    opened & closed & ended(text, last)
}
