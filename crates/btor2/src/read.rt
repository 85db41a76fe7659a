// A line of the format as code reads it: its keyword, its id, the width of its sort, its operands, its numbers and its constant.
ghost use Rattle.std.specs.Prelude.{◌≡◌, Bool, cond, ◌+◌, ◌≤◌, length, take};
ghost use Rattle.texts.specs.Numbers.{value_in};
ghost use Rattle.lines.specs.Lines.{lines, tokens};
ghost use Rattle.lines.specs.Format.{ref_of, sort_named};
ghost use Rattle.btor2.specs.Conversion.{State};
ghost use Rattle.lines.specs.inner.Told.{small};
ghost use Rattle.btor2.specs.inner.Kept.{Rising, Seen, SortsKept};
ghost use Rattle.spelling.specs.inner.Spelled.{short};
ghost use Rattle.btor2.specs.inner.Read.{operand_if, Operated, Filled, Read};

use crate::names::{Before, operand_of};
use lines::{Makes, MarkedLine, makes_of, number_of, numbers_of, ref_start, refs_of, small_of};
use spelling::{Line, Operand, Operands, literal_of};
use texts::value_in;

// A number as far as widths go: 128 for all from there on.
// (128, as `short` has it: no width is that great, so it fits nowhere, without a case of its own.)
#[tactic(auto, unfolding(spelling::specs::inner::Spelled::short, texts::specs::Numbers::numbered))]
fn short_of(t: &[u8]) -> u8
    ensures { result ≡ short (value_in 10 t.now) }
{
    match value_in(t, 10) {
        Some(n) if n < 128 => n as u8,
        _ => 128,
    }
}

// The id of the sort that an input's and a value's line names; 0 on other lines, and for one that 64 bits do not hold.
// (0, as the definitions `sort_named` and `small` have it: no sort has that id.)
#[tactic(auto, unfolding(lines::specs::inner::Told::small))]
fn sort_named(makes: Makes, t: &[u8]) -> u64
    ensures { result ≡ small (sort_named makes t.now) }
{
    match makes {
        Makes::Input | Makes::Value => small_of(t),
        Makes::Sort | Makes::Root => 0,
    }
}

// The operand that a reference names, where one is wanted, and else all 0, as the definition `operand_if` has it.
#[tactic(auto, unfolding(crate::specs::inner::Read::operand_if))]
fn operand_if(wanted: bool, before: &Before, t: &[u8]) -> Operand
    ensures { (σ : State) → Seen σ (take before.now.earlier.passed (lines before.now.earlier.text.now)) before.now.names.count before.now.bytes.now before.now.names.ids.now before.now.names.places.now → Rising before.now.names.ids.now before.now.names.count → result ≡ operand_if wanted σ (ref_of t.now) }
{
    if wanted {
        return operand_of(before, t);
    }
    Operand {
        negative: false,
        node: 0,
        width: 0,
    }
}

// So many operands, whose references stand from a place on.
fn operands_of(before: &Before, line: MarkedLine, place: u8, refs: u8) -> Operands
    requires { place ≤ 3 }
    ensures { (σ : State) → Seen σ (take before.now.earlier.passed (lines before.now.earlier.text.now)) before.now.names.count before.now.bytes.now before.now.names.ids.now before.now.names.places.now → Rising before.now.names.ids.now before.now.names.count → Operated σ (tokens line.entry.text.now) place refs result }
{
    let first = line.token_at(place);
    let a = operand_if(0 < refs, before, first);
    let second = line.token_at(place + 1);
    let b = operand_if(1 < refs, before, second);
    let third = line.token_at(place + 2);
    let c = operand_if(2 < refs, before, third);
    Operands { a, b, c }
}

// A line of which the keyword, the width and the operands are read: its numbers stand from a place on, and its constant after them.
fn filled_line(line: MarkedLine, word: u8, width: u8, ops: Operands, middle: u8) -> Line
    requires { middle ≤ 6 }
    ensures { Filled (tokens line.entry.text.now) word middle width ops result }
{
    let first = short_of(line.token_at(middle));
    let second = short_of(line.token_at(middle + 1));
    let last = middle + numbers_of(word);
    let literal = literal_of(word, line.token_at(last), width);
    let id = small_of(line.token_at(0));
    Line {
        word,
        id,
        width,
        ops,
        first,
        second,
        literal,
    }
}

// A line whose tokens are marked.
pub(crate) fn read_line(before: &Before, line: MarkedLine) -> Line
    ensures { (σ : State) → Seen σ (take before.now.earlier.passed (lines before.now.earlier.text.now)) before.now.names.count before.now.bytes.now before.now.names.ids.now before.now.names.places.now → Rising before.now.names.ids.now before.now.names.count → SortsKept σ before.now.sorts.now.count before.now.sorts.now.ids before.now.sorts.now.widths → Read σ (tokens line.entry.text.now) result }
{
    let word = number_of(line.token_at(1));
    let makes = makes_of(word);
    let place = ref_start(makes);
    let refs = refs_of(word);
    let sort = sort_named(makes, line.token_at(2));
    let width = before.sorts.width_of(before.earlier, sort);
    let ops = operands_of(before, line, place, refs);
    filled_line(line, word, width, ops, place + refs)
}
