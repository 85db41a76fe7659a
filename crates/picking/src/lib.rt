// Picking at one node taken out of a problem: inverse and consistent values.
#![tactic(auto)]

mod arithmetic;
mod basic;
mod bitwise;
mod choice;
mod comparisons;
mod divisions;
mod joining;
mod picks;
mod sets;
mod shifts;
mod signed;
mod spot;

pub use choice::branch;
pub use picks::{pick_consistent, pick_inverse, some_inverse};
pub use spot::{Spot, Three, at};
