// The kinds of the table, by name. A kind is a number, as in a problem's bytes, so that a `match` may name a range of them.
pub const VARIABLE: u8 = 0;

pub const CONSTANT: u8 = 1;

pub const NOT: u8 = 2;

pub const AND: u8 = 3;

pub const XOR: u8 = 4;

pub const ADD: u8 = 5;

pub const MUL: u8 = 6;

pub const SHL: u8 = 7;

pub const LSHR: u8 = 8;

pub const EQ: u8 = 9;

pub const BELOW: u8 = 10;

pub const IF: u8 = 11;

pub const CONCAT: u8 = 12;

pub const EXTRACT: u8 = 13;

pub const SLT: u8 = 14;

pub const ASHR: u8 = 15;

pub const SEXT: u8 = 16;

pub const UDIV: u8 = 17;
