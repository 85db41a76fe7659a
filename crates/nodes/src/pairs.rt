// Fixed bits: the pair of every node, filled in upward, node by node.
ghost use Rattle.std.specs.Prelude.{◌≡◌};
ghost use Rattle.nodes.specs.Problem.{problem as prob_of, pair_at};
ghost use Rattle.nodes.specs.inner.Nodes.{Narrowed, derives, Fillable, pairs_of, Unfilled, Fills, Filled};

use crate::operands::{held, operator};
use fixed::{Pair, pair_of};
use operators::{kind, operand_count};
use problem::{Node, Problem};

// The pair of an inner node, from its operands' pairs.
// (los and his, here and below: they are written here, before `Pairs` holds them.)
fn inner_pair(bytes: &[u8], los: &[u64], his: &[u64], n: Node) -> Pair
    requires { Narrowed bytes.now los.now his.now n }
    ensures { result ≡ derives bytes.now los.now his.now n }
{
    let count = operand_count(n.kind);
    let lo = held(los, n, count);
    let hi = held(his, n, count);
    let p = Pair { lo: lo.a, hi: hi.a };
    let q = Pair { lo: lo.b, hi: hi.b };
    let r = Pair { lo: lo.c, hi: hi.c };
    pair_of(operator(bytes, n), p, q, r)
}

// The pair of node i: a variable's and a constant's own, else what its operator has from its operands'.
#[tactic(auto, using(crate::specs::laws::Readings::own_pair, crate::specs::laws::Readings::narrowed, crate::specs::laws::Readings::derives_pair))]
fn pair_at(problem: Problem, los: &[u64], his: &[u64], i: u16) -> Pair
    requires { Fillable problem.bytes.now los.now his.now i }
    ensures { result ≡ pair_at (prob_of problem.entry.bytes.now) (pairs_of los.now his.now) i }
{
    let n = problem.node(i);
    if n.kind <= kind::CONSTANT {
        return Pair { lo: n.lo, hi: n.hi };
    }
    inner_pair(problem.bytes, los, his, n)
}

/// The pairs of all nodes, in ascending id; what stands after them stays.
// (lo and hi in arrays of their own, as document 01 has them, and by number: a pair is found from those before it. `Pairs` holds them after.)
#[tactic(auto, using(crate::specs::laws::Readings::fillable, crate::specs::laws::Readings::filled_all, crate::specs::laws::Pairs::fill_up_none, crate::specs::laws::Pairs::fill_up_step, crate::specs::laws::Readings::filled))]
pub fn fill(problem: Problem, los: &mut [u64], his: &mut [u64])
    requires { Unfilled problem.bytes.now los.old his.old }
    ensures fills { Fills problem.entry.bytes.now los.old his.old los.new his.new }
    ensures filled { Filled problem.entry.bytes.now los.new his.new }
{
    for i in 0..problem.node_count() {
        let pair = pair_at(problem, los, his, i);
        los[usize::from(i)] = pair.lo;
        his[usize::from(i)] = pair.hi;
    }
}
