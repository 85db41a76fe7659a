// The operators of documents 01 and 02: the table of kinds, and what each operator means.
// Callers write operators::sum, operators::Op: the modules are for the reader.
#![tactic(auto)]

pub mod kind;
mod meaning;
mod signed;
mod table;

pub use meaning::{Op, flip, join, left, ones, part, product, quotient, right, sum};
pub use signed::{below_signed, extend, half, less_signed, right_signed};
pub use table::{KINDS, Rule, Shape, operand_count, rule_holds, shape_of};
