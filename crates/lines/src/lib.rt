// BTOR2's lines: tokens, keywords, which lines are of the format, and what an id stands for in a text.
#![tactic(auto)]

mod fault;
mod format;
pub mod keyword;
mod table;
mod tokens;
mod told;

pub use fault::{Fault, refuse_if};
pub use format::{format_fault, is_signed, ref_start, unsigned_of};
pub use table::{Makes, Row, base_of, makes_of, number_of, numbers_of, refs_of, row_of};
pub use tokens::{MarkedLine, mark_tokens, token_walk};
pub use told::{alias_of, line_of, small_of, width_told};
