// Evaluation of all nodes, who reads each node, and evaluation of what is above a changed variable.
#![tactic(auto)]

mod above;
mod pass;
mod readers;
mod view;

pub use above::{evaluate, evaluate_above};
pub use readers::index_readers;
pub use view::Readers;
