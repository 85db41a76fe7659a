// Refusals 1 and 2: which lines are of the format.
ghost use Rattle.std.specs.Prelude.{◌≡◌, ◌+◌, ◌≤◌};
ghost use Rattle.lines.specs.Faults.{told};
ghost use Rattle.lines.specs.Lines.{tokens, token};
ghost use Rattle.lines.specs.Words.{shape, word_of};
ghost use Rattle.lines.specs.inner.Places.{Marked};
ghost use Rattle.lines.specs.Format.{is_word, is_number, is_id, signed, unsigned, is_reference, is_constant, id_wrong, bitvec_fault, sort_fault, refs_bad, numbers_bad, constant_bad, symbol_bad, arguments_wrong, ref_start, format_fault};

use crate::fault::{Fault, refuse_if};
use crate::keyword::OUTSIDE;
use crate::table::{Makes, makes_of, number_of, row_of};
use crate::tokens::MarkedLine;
use texts::{Class, byte_at, digits, run_end, same, value_in};

#[tactic(auto, using(crate::specs::laws::Format::lower_run), unfolding(crate::specs::Format::is_word))]
fn is_word(t: &[u8]) -> bool
    ensures { result ≡ is_word t.now }
{
    run_end(t, 0, Class::Lower) == t.len() && !t.is_empty()
}

// (As `is_numeral` of the crate `entries`, which this one does not know: BTOR2's number and SMT-LIB's numeral are two definitions.)
#[tactic(auto, unfolding(crate::specs::Format::is_number))]
fn is_number(t: &[u8]) -> bool
    ensures { result ≡ is_number t.now }
{
    digits(t, 10) && (t.len() == 1 || byte_at(t, 0) != b'0')
}

#[tactic(auto, unfolding(crate::specs::Format::is_id))]
fn is_id(t: &[u8]) -> bool
    ensures { result ≡ is_id t.now }
{
    digits(t, 10) && byte_at(t, 0) != b'0'
}

// Whether a minus sign stands in front, and what is left without it.
#[tactic(auto, unfolding(crate::specs::Format::signed))]
pub fn is_signed(t: &[u8]) -> bool
    ensures { result ≡ signed t.now }
{
    byte_at(t, 0) == b'-'
}

#[tactic(auto, unfolding(crate::specs::Format::unsigned, crate::specs::Format::signed))]
pub fn unsigned_of(t: &[u8]) -> &[u8]
    ensures { result.now ≡ unsigned t.now }
{
    match t {
        [b'-', rest @ ..] => rest,
        _ => t,
    }
}

#[tactic(auto, unfolding(crate::specs::Format::is_reference))]
fn is_reference(t: &[u8]) -> bool
    ensures { result ≡ is_reference t.now }
{
    is_id(unsigned_of(t))
}

#[tactic(auto, unfolding(crate::specs::Format::is_constant))]
fn is_constant(base: u8, t: &[u8]) -> bool
    ensures { result ≡ is_constant base t.now }
{
    if base == 10 {
        is_number(unsigned_of(t))
    } else {
        digits(t, base)
    }
}

// An id that is no number of the format, or not below 2^64.
#[tactic(auto, unfolding(crate::specs::Format::id_wrong, texts::specs::Numbers::numbered))]
fn id_wrong(t: &[u8]) -> bool
    ensures { result ≡ id_wrong t.now }
{
    value_in(t, 10).is_none() || !is_id(t)
}

// The word `bitvec`: another word is outside the list, and what is no word is not of the format.
#[tactic(auto, unfolding(crate::specs::Format::bitvec_fault, texts::specs::Runs::ascii))]
fn bitvec_fault(t: &[u8]) -> Result<(), Fault>
    ensures { told result ≡ bitvec_fault t.now }
{
    refuse_if(!is_word(t), Fault::Format)?;
    refuse_if(!same(t, b"bitvec"), Fault::Keyword)
}

// Token 2: the word `bitvec`, or a sort's id.
#[tactic(auto, unfolding(crate::specs::Format::sort_fault))]
fn sort_fault(makes: Makes, t: &[u8]) -> Result<(), Fault>
    ensures { told result ≡ sort_fault makes t.now }
{
    match makes {
        Makes::Sort => bitvec_fault(t),
        Makes::Input | Makes::Value => refuse_if(!is_id(t), Fault::Format),
        Makes::Root => Ok(()),
    }
}

/// The place of the first reference.
pub fn ref_start(makes: Makes) -> u8
    ensures place { result ≡ ref_start makes }
    ensures most { result ≤ 3 }
{
    match makes {
        Makes::Sort | Makes::Input | Makes::Value => 3,
        Makes::Root => 2,
    }
}

// A reference that is none, among so many from a place on.
#[tactic(auto, unfolding(crate::specs::Format::refs_bad))]
fn refs_wrong(line: MarkedLine, place: u8, count: u8) -> bool
    requires { place ≤ 3 }
    ensures { result ≡ refs_bad count place (tokens line.entry.text.now) }
{
    (0 < count && !is_reference(line.token_at(place)))
        || (1 < count && !is_reference(line.token_at(place + 1)))
        || (2 < count && !is_reference(line.token_at(place + 2)))
}

// A number that is none, among so many from a place on.
// (Apart from refs_wrong, as `numbers_bad` and `refs_bad` are: they are of two and of three.)
#[tactic(auto, unfolding(crate::specs::Format::numbers_bad))]
fn numbers_wrong(line: MarkedLine, place: u8, count: u8) -> bool
    requires { place ≤ 6 }
    ensures { result ≡ numbers_bad count place (tokens line.entry.text.now) }
{
    (0 < count && !is_number(line.token_at(place)))
        || (1 < count && !is_number(line.token_at(place + 1)))
}

// A constant that is none, where the base is not 0.
#[tactic(auto, unfolding(crate::specs::Format::constant_bad))]
fn constant_wrong(line: MarkedLine, place: u8, base: u8) -> bool
    requires { place ≤ 8 }
    ensures { result ≡ constant_bad base place (tokens line.entry.text.now) }
{
    base != 0 && !is_constant(base, line.token_at(place))
}

// A second token after the arguments.
#[tactic(auto, unfolding(crate::specs::Format::symbol_bad))]
fn symbol_wrong(line: MarkedLine, place: u8, base: u8) -> bool
    requires { place ≤ 8 }
    ensures { result ≡ symbol_bad base place (tokens line.entry.text.now) }
{
    let after = if base == 0 { place + 1 } else { place + 2 };
    !line.token_at(after).is_empty()
}

// The references, the numbers, the constant and the symbol of a line with a keyword of the list.
#[tactic(auto, unfolding(crate::specs::Format::arguments_wrong))]
fn arguments_wrong(line: MarkedLine, word: u8) -> bool
    ensures { result ≡ arguments_wrong (shape (word_of word)) (tokens line.entry.text.now) }
{
    let row = row_of(word);
    let first = ref_start(row.makes);
    let middle = first + row.refs;
    let last = middle + row.numbers;
    refs_wrong(line, first, row.refs)
        || numbers_wrong(line, middle, row.numbers)
        || constant_wrong(line, last, row.base)
        || symbol_wrong(line, last, row.base)
}

/// Refusals 1 and 2, of a line with tokens.
pub fn format_fault(line: MarkedLine) -> Result<(), Fault>
    ensures { told result ≡ format_fault (tokens line.entry.text.now) }
{
    let keyword = line.token_at(1);
    let word = number_of(keyword);
    refuse_if(
        id_wrong(line.token_at(0)) | !is_word(keyword),
        Fault::Format,
    )?;
    refuse_if(OUTSIDE <= word, Fault::Keyword)?;
    sort_fault(makes_of(word), line.token_at(2))?;
    refuse_if(arguments_wrong(line, word), Fault::Format)
}
