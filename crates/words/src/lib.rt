// Words of up to 64 bits: their bits, ternary words, the least value of a set from a proposal on, and sets of ids as marks.
// Nothing here knows of operators. Callers write words::cut: the modules are for the reader.
#![tactic(auto)]

mod bits;
mod found;
mod interval;
mod marks;
mod modular;
mod ternary;

pub use bits::{and_not, cut, low_bit, set_low, to_width, top_bit};
pub use found::lesser_of;
pub use interval::{first_between, later, pick_between};
pub use marks::{lowest, mark, marked, unmark};
pub use modular::{odd_inverse, wrapping_mul};
pub use ternary::{Ternary, agrees, first_agreeing, pick_agreeing};
