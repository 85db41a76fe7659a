// The index of readers beside its problem.
use problem::Problem;

/// An accepted problem, and the slots that hold which nodes read each of its nodes.
// (0 ends a chain of slots, and no `Option`: `Index` has it so, and memory is fixed.)
#[derive(Clone, Copy, Debug)]
pub struct Readers<'a> {
    pub problem: Problem<'a>,
    pub slots: &'a [u16],
}
