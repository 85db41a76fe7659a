// One node of an accepted problem as a run sees it: what its operands hold, the value that it takes if it is to be evaluated, its
// fixed bits, and the node as picking sees it.
#![tactic(auto)]

mod due;
mod operands;
mod pairs;
mod spot;
mod values;
mod view;

pub use due::Scope;
pub use operands::operand;
pub use pairs::fill;
pub use spot::spot_of;
pub use values::taken_at;
pub use view::Pairs;
