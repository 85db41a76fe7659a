// A line as it has been read: its keyword's number, its id, the width of its sort, its operands, its numbers and its constant.
use crate::constants::Literal;

// A line's operand: whether a not is wanted, the node that its reference names, and that node's width.
#[derive(Clone, Copy, Debug, PartialEq, Eq)]
pub struct Operand {
    pub negative: bool,
    pub node: u16,
    pub width: u8,
}

// The operands of a line; one that it does not have is all 0.
#[derive(Clone, Copy, Debug, PartialEq, Eq)]
pub struct Operands {
    pub a: Operand,
    pub b: Operand,
    pub c: Operand,
}

#[derive(Clone, Copy, Debug, PartialEq, Eq)]
pub struct Line {
    pub word: u8,
    pub id: u64,
    pub width: u8,
    pub ops: Operands,
    pub first: u8,
    pub second: u8,
    pub literal: Literal,
}
