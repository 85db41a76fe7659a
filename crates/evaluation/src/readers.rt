// The index of readers, built from the last node down: each link goes before those of higher ids, so that every chain ascends. Until
// node i has its links, slot 4i + 1 tells where what is above it ends: all that read it are linked before it, and hand theirs down to
// it. A variable has no links, so there it stays.
ghost use Rattle.std.specs.Prelude.{◌≡◌, ◌+◌, ◌*◌, ◌<◌, max, length};
ghost use Rattle.nodes.specs.Problem.{problem as prob_of};
ghost use Rattle.nodes.specs.inner.Nodes.{operand_at};
ghost use Rattle.evaluation.specs.inner.Readers.{links as links_at, raised, in_front, Linkable, Linking, Unindexed, Indexed};

use nodes::operand;
use operators::operand_count;
use problem::{Node, Problem};

// Whether a node has a link at position j: its kind has the position, and no earlier one holds that operand, as "a reader is
// listed once even if it reads a node at several positions".
fn links(n: Node, j: u32) -> bool
    ensures { result ≡ links_at n j }
{
    let there = j < u32::from(operand_count(n.kind));
    match j {
        0 => there,
        1 => there & (n.b != n.a),
        _ => there & ((n.c != n.a) & (n.c != n.b)),
    }
}

// What is above m ends at `end` or later.
#[tactic(auto, unfolding(crate::specs::inner::Readers::raised))]
fn raise(slots: &mut [u16], m: u16, end: u16)
    requires { 4 * m + 1 < length slots.old }
    ensures { slots.new ≡ raised m end slots.old }
{
    let at = 4 * usize::from(m) + 1;
    slots[at] = slots[at].max(end);
}

// Node i, which is n, put in front of the readers of its operand at position j. What is above i ends at `end`.
#[tactic(auto, using(crate::specs::laws::Chains::length_raised), unfolding(crate::specs::inner::Readers::in_front))]
fn link(slots: &mut [u16], n: Node, i: u16, j: u16, end: u16)
    requires { Linkable slots.old n i j }
    ensures { slots.new ≡ in_front (links_at n j) (operand_at n j) (4 * i + 1 + j) end slots.old }
{
    let position = u32::from(j);
    if links(n, position) {
        let m = operand(n, position);
        let begin = 4 * usize::from(m);
        let own = 4 * i + 1 + j;
        raise(slots, m, end);
        slots[usize::from(own)] = slots[begin];
        slots[begin] = own;
    }
}

// Node i put in front of the readers of each of its operands.
fn link_node(problem: Problem, slots: &mut [u16], i: u16)
    requires linking { Linking problem.bytes.now (i + 1) slots.old }
    requires inside { i < (prob_of problem.bytes.now).nodes }
    ensures linking { Linking problem.entry.bytes.now i slots.new }
    ensures long { length slots.new ≡ length slots.old }
{
    let n = problem.node(i);
    let end = slots[4 * usize::from(i) + 1].max(i + 1);
    link(slots, n, i, 2, end);
    link(slots, n, i, 1, end);
    link(slots, n, i, 0, end);
}

/// The index of a problem.
#[tactic(auto, using(crate::specs::laws::Linking::linking_none, crate::specs::laws::Linking::linking_all))]
pub fn index_readers(problem: Problem, slots: &mut [u16])
    requires { Unindexed problem.bytes.now slots.old }
    ensures { Indexed problem.entry.bytes.now slots.new }
{
    for i in (0..problem.node_count()).rev() {
        link_node(problem, slots, i);
    }
}
