// Who reads each node, of a file whose nodes stand in any order: chains of slots. Slot 3i + p is node i's field at position p, where
// that names an operand. The chains are built by one pass over the nodes; a new slot goes to the front, so a chain goes down.
ghost use Rattle.std.specs.Prelude.{◌+◌, ◌*◌};
ghost use Rattle.problem.specs.Layout.{node_count};
ghost use Rattle.mending.specs.inner.Chains.{Chained, Linkable, Linked, Linking, Unlinked};

use operators::operand_count;
use problem::{node_at, node_count};

/// The first slot that reads each node, and from slot to slot the next one. Both tell a slot by its number + 1, and 0 ends a chain:
/// the memory is fixed, and an `Option<u16>` would double it.
// (`Drop` alone: so many places are never copied, compared or printed.)
#[derive(Drop)]
pub(crate) struct Chains {
    pub heads: [u16; 1024],
    pub nexts: [u16; 3072],
}

// A slot put in front of the chain of the node x that it names, where it is an operand. (A bool and the field, as `Linked` has them.)
fn link(chains: &mut Chains, operand: bool, slot: u16, x: u16)
    requires { Linkable operand slot x }
    ensures { Linked operand slot x chains.old.heads chains.old.nexts chains.new.heads chains.new.nexts }
{
    if operand {
        let at = usize::from(x);
        chains.nexts[usize::from(slot)] = chains.heads[at];
        chains.heads[at] = slot + 1;
    }
}

// The slots of node i.
fn link_node(problem: &[u8], i: u16, chains: &mut Chains)
    requires { Linking problem.now i chains.old.heads chains.old.nexts }
    ensures { Chained problem.now (3 * i + 3) chains.new.heads chains.new.nexts }
{
    let n = node_at(problem, i);
    let operands = operand_count(n.kind);
    let slot = 3 * i;
    link(chains, 0 < operands, slot, n.a);
    link(chains, 1 < operands, slot + 1, n.b);
    link(chains, 2 < operands, slot + 2, n.c);
}

// The slots of all nodes.
pub(crate) fn link_all(problem: &[u8], chains: &mut Chains)
    requires { Unlinked problem.now chains.old.heads chains.old.nexts }
    ensures { Chained problem.now (3 * node_count problem.now) chains.new.heads chains.new.nexts }
{
    for i in 0..node_count(problem) {
        link_node(problem, i, chains);
    }
}
