// What must fit on a line of each keyword, and how it is spelled out in nodes.
ghost use Rattle.std.specs.Prelude.{◌≡◌};
ghost use Rattle.lines.specs.Words.{word_of};
ghost use Rattle.spelling.specs.inner.Spelled.{rule_of, form_of};

use lines::keyword;
use operators::kind;

// What must fit on a line, by the widths of its sort and its operands, its numbers and its constant.
#[derive(Clone, Copy, Debug, PartialEq, Eq)]
pub enum Rule {
    // Nothing.
    Free,
    // A sort's own width.
    Sort,
    // The constant.
    Constant,
    // One operand of the line's width, or two.
    One,
    Two,
    // Two operands alike, and one bit.
    Compare,
    // A condition of one bit and two operands of the line's width.
    If,
    // The sum of two widths.
    Concat,
    // A part of the operand.
    Slice,
    // The operand's width and a number.
    Extend,
    // An operand of one bit.
    Bit,
}

// How a line is spelled out in nodes.
#[derive(Clone, Copy, Debug, PartialEq, Eq)]
pub enum Form {
    Nothing,
    Variable,
    Constant,
    // One node of a kind.
    Plain(u8),
    Slice,
    Or,
    Sub,
    Neq,
    Uext,
    Sext,
}

/// What must fit on a line, and how it is spelled out, by its keyword.
#[derive(Clone, Copy, Debug, PartialEq, Eq)]
pub(crate) struct Row {
    pub rule: Rule,
    pub form: Form,
}

fn new_row(rule: Rule, form: Form) -> Row
    ensures { result ≡ record { rule = rule; form = form } }
{
    Row { rule, form }
}

/// The row of a keyword; a word outside the list has the last.
#[tactic(auto, unfolding(crate::specs::inner::Spelled::rule_of, crate::specs::inner::Spelled::form_of))]
pub(crate) fn row_of(word: u8) -> Row
    ensures rule { result.rule ≡ rule_of (word_of word) }
    ensures form { result.form ≡ form_of (word_of word) }
{
    match word {
        keyword::SORT => new_row(Rule::Sort, Form::Nothing),
        keyword::INPUT => new_row(Rule::Free, Form::Variable),
        keyword::ZERO => new_row(Rule::Free, Form::Constant),
        keyword::ONE => new_row(Rule::Free, Form::Constant),
        keyword::ONES => new_row(Rule::Free, Form::Constant),
        keyword::CONST => new_row(Rule::Constant, Form::Constant),
        keyword::CONSTD => new_row(Rule::Constant, Form::Constant),
        keyword::CONSTH => new_row(Rule::Constant, Form::Constant),
        keyword::NOT => new_row(Rule::One, Form::Plain(kind::NOT)),
        keyword::AND => new_row(Rule::Two, Form::Plain(kind::AND)),
        keyword::OR => new_row(Rule::Two, Form::Or),
        keyword::XOR => new_row(Rule::Two, Form::Plain(kind::XOR)),
        keyword::ADD => new_row(Rule::Two, Form::Plain(kind::ADD)),
        keyword::SUB => new_row(Rule::Two, Form::Sub),
        keyword::MUL => new_row(Rule::Two, Form::Plain(kind::MUL)),
        keyword::SLL => new_row(Rule::Two, Form::Plain(kind::SHL)),
        keyword::SRL => new_row(Rule::Two, Form::Plain(kind::LSHR)),
        keyword::SRA => new_row(Rule::Two, Form::Plain(kind::ASHR)),
        keyword::EQ => new_row(Rule::Compare, Form::Plain(kind::EQ)),
        keyword::NEQ => new_row(Rule::Compare, Form::Neq),
        keyword::ULT => new_row(Rule::Compare, Form::Plain(kind::BELOW)),
        keyword::SLT => new_row(Rule::Compare, Form::Plain(kind::SLT)),
        keyword::ITE => new_row(Rule::If, Form::Plain(kind::IF)),
        keyword::CONCAT => new_row(Rule::Concat, Form::Plain(kind::CONCAT)),
        keyword::SLICE => new_row(Rule::Slice, Form::Slice),
        keyword::UEXT => new_row(Rule::Extend, Form::Uext),
        keyword::SEXT => new_row(Rule::Extend, Form::Sext),
        keyword::CONSTRAINT => new_row(Rule::Bit, Form::Nothing),
        keyword::OUTSIDE..=u8::MAX => new_row(Rule::Free, Form::Nothing),
    }
}
