// A line of BTOR2 spelled out in nodes: what must fit, its constant, its nodes, and nodes and roots in bytes.
#![tactic(auto)]

mod bytes;
mod constants;
mod forms;
mod line;
mod roots;
mod spell;
mod writing;

pub use bytes::put_node;
pub use constants::{Literal, literal_of};
pub use forms::{Form, Rule};
pub use line::{Line, Operand, Operands};
pub use roots::is_root;
pub use spell::{line_fits, new_count, new_node, node_for};
pub use writing::write_all;
