// The table of kinds as a constant table, read by the checks: operand count, used fields and width rule.
ghost use Rattle.std.specs.Prelude.{◌≡◌};
ghost use Rattle.operators.specs.Table.{shape_of, rule_holds};

use crate::kind;

// The width rules of the table's last column.
#[derive(Clone, Copy, Debug, PartialEq, Eq)]
pub enum Rule {
    // variable, constant: none
    Free,
    // not: a = w
    One,
    // and, xor, add, mul, shl, lshr, ashr: both w
    Both,
    // eq, below, slt: equal; w = 1
    Equal,
    // if: a = 1; b, c = w
    Choice,
    // concat: sum is w
    Sum,
    // extract: field b is the lowest bit; b + w at most a's width
    Part,
    // sext: w greater than a's width
    Longer,
    // udiv: both w; w at most 16
    Narrow,
}

// What a kind uses: so many operands, so many of the fields a, b, c, and its width rule.
#[derive(Clone, Copy, Debug, PartialEq, Eq)]
pub struct Shape {
    pub operands: u8,
    pub fields: u8,
    pub rule: Rule,
}

// How many kinds there are: who asks whether a number is a kind's reads this.
pub const KINDS: u8 = 18;

// The rows that more than one kind has.
const NO_OPERAND: Shape = Shape {
    operands: 0,
    fields: 0,
    rule: Rule::Free,
};

const ALIKE: Shape = Shape {
    operands: 2,
    fields: 2,
    rule: Rule::Both,
};

const COMPARED: Shape = Shape {
    operands: 2,
    fields: 2,
    rule: Rule::Equal,
};

const SHAPES: [Shape; KINDS as usize] = [
    // variable, constant
    NO_OPERAND,
    NO_OPERAND,
    // not
    Shape {
        operands: 1,
        fields: 1,
        rule: Rule::One,
    },
    // and, xor, add, mul, shl, lshr
    ALIKE,
    ALIKE,
    ALIKE,
    ALIKE,
    ALIKE,
    ALIKE,
    // eq, below
    COMPARED,
    COMPARED,
    // if
    Shape {
        operands: 3,
        fields: 3,
        rule: Rule::Choice,
    },
    // concat
    Shape {
        operands: 2,
        fields: 2,
        rule: Rule::Sum,
    },
    // extract
    Shape {
        operands: 1,
        fields: 2,
        rule: Rule::Part,
    },
    // slt
    COMPARED,
    // ashr
    ALIKE,
    // sext
    Shape {
        operands: 1,
        fields: 1,
        rule: Rule::Longer,
    },
    // udiv
    Shape {
        operands: 2,
        fields: 2,
        rule: Rule::Narrow,
    },
];

// The row of a kind; a number that is no kind's has the row of a variable.
pub fn shape_of(kind: u8) -> Shape
    ensures { result ≡ shape_of kind }
{
    if kind < KINDS {
        return SHAPES[usize::from(kind)];
    }
    NO_OPERAND
}

// The operand count of a kind, decided by `match`: the table is made anew wherever it is read, which a search pays at each
// step and a check does not notice.
pub fn operand_count(kind: u8) -> u8
    ensures { result ≡ (shape_of kind).operands }
{
    match kind {
        kind::NOT | kind::EXTRACT | kind::SEXT => 1,
        kind::IF => 3,
        kind::AND..=kind::BELOW | kind::CONCAT | kind::SLT..=kind::ASHR | kind::UDIV => 2,
        kind::VARIABLE..=kind::CONSTANT | KINDS..=u8::MAX => 0,
    }
}

// Whether a width rule holds, of the node's width w, its operands' widths and its field b.
// (Six parameters: a row's rule, and the node's numbers one by one, as the definition `rule_holds` has them.)
#[tactic(auto, unfolding(crate::specs::Table::rule_holds))]
pub fn rule_holds(rule: Rule, w: u8, wa: u8, wb: u8, wc: u8, b: u16) -> bool
    ensures { result ≡ rule_holds rule w wa wb wc b }
{
    match rule {
        Rule::Free => true,
        Rule::One => wa == w,
        Rule::Both => (wa == w) & (wb == w),
        Rule::Equal => (wa == wb) & (w == 1),
        Rule::Choice => (wa == 1) & (wb == w) & (wc == w),
        Rule::Sum => u16::from(wa) + u16::from(wb) == u16::from(w),
        Rule::Part => u32::from(b) + u32::from(w) <= u32::from(wa),
        Rule::Longer => wa < w,
        Rule::Narrow => (wa == w) & (wb == w) & (w <= 16),
    }
}
