// The numbers in an entry, of one token each: numerals, widths, literals, decimals.
ghost use Rattle.std.specs.Prelude.{◌≡◌, ◌*◌, [], ◌∷◌, take, drop, if◌then◌else◌, nat_eq};
ghost use Rattle.texts.specs.Runs.{equal};
ghost use Rattle.entries.specs.Entries.{is_numeral, up_to64, width_said, base_of, literal_width, is_decimal};

use texts::{byte_at, digits, value_in};

// (As `is_number` of the crate `lines`, which this one does not know: SMT-LIB's numeral and BTOR2's number are two definitions.)
#[tactic(auto, unfolding(crate::specs::Entries::is_numeral))]
fn is_numeral(t: &[u8]) -> bool
    ensures { result ≡ is_numeral t.now }
{
    digits(t, 10) && (t.len() == 1 || byte_at(t, 0) != b'0')
}

// A width of 1 to 64, and 0 for any other. No width is 0, here and below, as in the definitions: what has none differs from every
// variable's, without a case of its own.
#[tactic(auto, unfolding(crate::specs::Entries::up_to64))]
fn up_to_64(w: u64) -> u64
    ensures { result ≡ up_to64 w }
{
    if w <= 64 { w } else { 0 }
}

// The width that a numeral says; 0 where it is none, or no numeral.
#[tactic(auto, unfolding(crate::specs::Entries::width_said, crate::specs::Entries::up_to64, texts::specs::Numbers::numbered))]
pub(crate) fn width_said(t: &[u8]) -> u64
    ensures { result ≡ width_said t.now }
{
    if !is_numeral(t) {
        return 0;
    }
    up_to_64(value_in(t, 10).unwrap_or(0))
}

// What follows the two bytes that a literal or a decimal begins with.
pub(crate) fn beyond(t: &[u8]) -> &[u8]
    ensures { result.now ≡ drop 2 t.now }
{
    &t[t.len().min(2)..]
}

// The base of a literal, `#b` or `#x`; 0 where it is none.
// (0, as the definition has it: no digit is below it, so that `digits` refuses what has no base.)
#[tactic(auto, unfolding(crate::specs::Entries::base_of, texts::specs::Runs::ascii, texts::specs::Runs::equal))]
pub(crate) fn base_of(t: &[u8]) -> u8
    ensures { result ≡ base_of t.now }
{
    match t {
        [b'#', b'b', ..] => 2,
        [b'#', b'x', ..] => 16,
        _ => 0,
    }
}

// How many bits so many digits are; 0 where they are too many.
#[tactic(auto, unfolding(crate::specs::Entries::up_to64))]
fn bits_of(base: u8, count: usize) -> u64
    ensures { result ≡ up_to64 (if nat_eq base 2 then count else 4 * count) }
{
    if base == 2 {
        return up_to_64(count as u64);
    }
    if count <= 16 { 4 * (count as u64) } else { 0 }
}

// The width of a literal; 0 where it has none of 1 to 64, or is none.
#[tactic(auto, unfolding(crate::specs::Entries::literal_width))]
pub(crate) fn literal_width(t: &[u8]) -> u64
    ensures { result ≡ literal_width t.now }
{
    let base = base_of(t);
    let said = beyond(t);
    if digits(said, base) {
        bits_of(base, said.len())
    } else {
        0
    }
}

#[tactic(auto, unfolding(crate::specs::Entries::is_decimal, texts::specs::Runs::ascii, texts::specs::Runs::equal))]
pub(crate) fn is_decimal(t: &[u8]) -> bool
    ensures { result ≡ is_decimal t.now }
{
    matches!(t, [b'b', b'v', ..]) && is_numeral(beyond(t))
}
