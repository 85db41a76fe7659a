// The inverse and the consistent set of a node's position, without the operand's pair: by kind. A contract settles what is in a
// set and not how it is cut into boxes, so functions that answer sets stay inside this crate. (Those of shl, lshr, ashr and udiv ask
// only which of two positions is meant; each promises its own equation, so one function for all would take that as an argument and be
// longer than they are.)
// (A width and a target are two parameters in these files, with one short clause, `Sized`, `Word`, `Short` or `Joined`, or spelled out: each asks no more than
// its operator needs, which one type for all would not. A position is a number, and so is a bit: an enum would be made of it at each call.)
ghost use Rattle.std.specs.Prelude.{◌≡◌, ◌-◌};
ghost use Rattle.picking.specs.Spot.{at as standing, put, value, positions, Reaches, Fair, Asked};
ghost use Rattle.boxes.specs.inner.Boxes.{Solves};

use crate::spot::{Spot, other};
use crate::{arithmetic, basic, bitwise, choice, comparisons, divisions, joining, shifts, signed};
use boxes::Set;
use operators::{KINDS, kind};
use words::Ternary;

// The values of position i that give t with the others at their current values.
pub(crate) fn inverse_set(s: Spot, i: u32, t: u64) -> Set
    requires { Asked s i t }
    ensures { Solves (standing s.widths i) (λ v. value s (put s.current i v) ≡ t) result }
{
    let w = s.width;
    let now = s.current;
    let y = other(now, i);
    match s.kind {
        kind::NOT => bitwise::inverse_not(w, t),
        kind::AND => bitwise::inverse_and(y, t),
        kind::XOR => bitwise::inverse_xor(y, t),
        kind::ADD => arithmetic::inverse_add(w, y, t),
        kind::MUL => arithmetic::inverse_mul(w, y, t),
        kind::SHL => shifts::inverse_shl(i, w, y, t),
        kind::LSHR => shifts::inverse_lshr(i, y, t),
        kind::EQ => comparisons::inverse_eq(y, t),
        kind::BELOW => comparisons::inverse_below(i, y, t),
        kind::IF => choice::inverse_if(i, now, t),
        kind::CONCAT => joining::inverse_concat(i, s.widths.a as u32, s.widths.b as u32, y, t),
        kind::EXTRACT => joining::inverse_extract(w, s.low, t),
        kind::SLT => signed::inverse_slt(i, s.widths.a as u32, y, t),
        kind::ASHR => signed::inverse_ashr(i, w, y, t),
        kind::SEXT => signed::inverse_sext(s.widths.a as u32, w, t),
        kind::UDIV => divisions::inverse_udiv(i, w, y, t),
        kind::VARIABLE..=kind::CONSTANT | KINDS..=u8::MAX => Set::Empty,
    }
}

// The pair of the other of two positions.
fn other_pair(s: Spot, i: u32) -> Ternary
    requires { Fair s × (positions s ≡ 2) }
    ensures lo { result.lo ≡ standing s.los (1 - i) }
    ensures hi { result.hi ≡ standing s.his (1 - i) }
{
    Ternary {
        lo: other(s.los, i),
        hi: other(s.his, i),
    }
}

// The values of position i that give t with some values of the others, of which those of and, xor, eq, below, if and concat agree
// with their pairs. Where there are no others they are the inverse values; of add the other can make up for any value.
pub(crate) fn consistent_set(s: Spot, i: u32, t: u64) -> Set
    requires { Asked s i t }
    ensures { Solves (standing s.widths i) (λ v. Reaches s t i v) result }
{
    let w = s.width;
    match s.kind {
        kind::NOT => bitwise::inverse_not(w, t),
        kind::AND => bitwise::consistent_and(other_pair(s, i), t),
        kind::XOR => bitwise::consistent_xor(other_pair(s, i), t),
        kind::ADD => basic::all(),
        kind::MUL => arithmetic::consistent_mul(w, t),
        kind::SHL => shifts::consistent_shl(i, w, t),
        kind::LSHR => shifts::consistent_lshr(i, w, t),
        kind::EQ => comparisons::consistent_eq(other_pair(s, i), t),
        kind::BELOW => comparisons::consistent_below(i, other_pair(s, i), t),
        kind::IF => choice::consistent_if(i, s.los, s.his, t),
        kind::CONCAT => joining::consistent_concat(
            i,
            s.widths.a as u32,
            s.widths.b as u32,
            other_pair(s, i),
            t,
        ),
        kind::EXTRACT => joining::inverse_extract(w, s.low, t),
        kind::SLT => signed::consistent_slt(i, s.widths.a as u32, other_pair(s, i), t),
        kind::ASHR => signed::consistent_ashr(i, w, t),
        kind::SEXT => signed::inverse_sext(s.widths.a as u32, w, t),
        kind::UDIV => divisions::consistent_udiv(i, w, t),
        kind::VARIABLE..=kind::CONSTANT | KINDS..=u8::MAX => Set::Empty,
    }
}
