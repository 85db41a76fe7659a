// The keywords of the list, by name. A keyword is a number, its place in the list, as `number_of_determined` has it.
pub const SORT: u8 = 0;

pub const INPUT: u8 = 1;

pub const ZERO: u8 = 2;

pub const ONE: u8 = 3;

pub const ONES: u8 = 4;

pub const CONST: u8 = 5;

pub const CONSTD: u8 = 6;

pub const CONSTH: u8 = 7;

pub const NOT: u8 = 8;

pub const AND: u8 = 9;

pub const OR: u8 = 10;

pub const XOR: u8 = 11;

pub const ADD: u8 = 12;

pub const SUB: u8 = 13;

pub const MUL: u8 = 14;

pub const SLL: u8 = 15;

pub const SRL: u8 = 16;

pub const SRA: u8 = 17;

pub const EQ: u8 = 18;

pub const NEQ: u8 = 19;

pub const ULT: u8 = 20;

pub const SLT: u8 = 21;

pub const ITE: u8 = 22;

pub const CONCAT: u8 = 23;

pub const SLICE: u8 = 24;

pub const UEXT: u8 = 25;

pub const SEXT: u8 = 26;

pub const CONSTRAINT: u8 = 27;

/// A word outside the list, and each number from here on.
pub const OUTSIDE: u8 = 28;
