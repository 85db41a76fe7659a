// The mended file and the map written into lent places.
ghost use Rattle.std.specs.Prelude.{◌≡◌, cond, ltb, ◌+◌, ◌*◌, ◌≤◌, length, get_or};
ghost use Rattle.problem.specs.Layout.{node_count, root_count};
ghost use Rattle.mending.specs.Order.{operands_of};
ghost use Rattle.mending.specs.Mended.{bytes16, joined, with_fields, moved_bytes, node_bytes, root_bytes, mended};
ghost use Rattle.mending.specs.inner.Laid.{laid};
ghost use Rattle.mending.specs.inner.Mending.{Numbered, Moving, Writable};

use crate::order::Order;
use operators::operand_count;
use problem::{Node, node_at, node_count, root_at, root_count};

// Bytes, from a place on.
// (As `put` in `spelling`: neither crate knows the other, and it is one line; `laid` is `sets` by another name.)
#[tactic(auto, using(crate::specs::laws::Laid::laid_copied))]
fn put_bytes(out: &mut [u8], at: usize, part: &[u8])
    requires { at + length part.now ≤ length out.old }
    ensures { out.new ≡ laid out.old at part.now }
{
    out[at..at + part.len()].copy_from_slice(part);
}

// A number of 16 bits, the low byte first.
fn put_u16(out: &mut [u8], at: usize, v: u16)
    requires { at + 2 ≤ length out.old }
    ensures { out.new ≡ laid out.old at (bytes16 v) }
{
    put_bytes(out, at, &v.to_le_bytes());
}

// The new id of an old one; an id that no node has stays.
fn new_of(news: &[u16], id: u16) -> u16
    ensures { result ≡ get_or news.now id id }
{
    news.get(usize::from(id)).copied().unwrap_or(id)
}

// A field, renumbered where it names an operand. (A bool and the field, as the contract has them.)
fn renumber(news: &[u16], operand: bool, id: u16) -> u16
    ensures { result ≡ cond operand (get_or news.now id id) id }
{
    if operand { new_of(news, id) } else { id }
}

// A node with its operands renumbered.
fn renumbered(news: &[u16], n: Node) -> Node
    ensures a { result.a ≡ cond (ltb 0 (operands_of n)) (get_or news.now n.a n.a) n.a }
    ensures b { result.b ≡ cond (ltb 1 (operands_of n)) (get_or news.now n.b n.b) n.b }
    ensures c { result.c ≡ cond (ltb 2 (operands_of n)) (get_or news.now n.c n.c) n.c }
{
    let operands = operand_count(n.kind);
    let a = renumber(news, 0 < operands, n.a);
    let b = renumber(news, 1 < operands, n.b);
    let c = renumber(news, 2 < operands, n.c);
    Node { a, b, c, ..n }
}

// A node's 24 bytes with the fields of n.
fn put_fields(out: &mut [u8], at: usize, part: &[u8], n: Node)
    requires { (length part.now ≡ 24) × (at + 24 ≤ length out.old) }
    ensures { out.new ≡ laid out.old at (with_fields part.now n.a n.b n.c) }
{
    put_bytes(out, at, &part[..2]);
    put_u16(out, at + 2, n.a);
    put_u16(out, at + 4, n.b);
    put_u16(out, at + 6, n.c);
    put_bytes(out, at + 8, &part[8..]);
}

// Old node i, from a place on.
fn put_node(problem: &[u8], news: &[u16], i: u16, out: &mut [u8], at: usize)
    requires { Moving problem.now news.now i out.old at }
    ensures { out.new ≡ laid out.old at (moved_bytes problem.now i) }
{
    let n = renumbered(news, node_at(problem, i));
    let from = 9 + 24 * usize::from(i);
    put_fields(out, at, &problem[from..from + 24], n);
}

// All nodes in the new order.
fn put_nodes(order: &Order, out: &mut [u8])
    requires { Writable order.now.problem.now (length out.old) }
    ensures { out.new ≡ laid out.old 9 (joined (node_bytes order.now.problem.now) (node_count order.now.problem.now)) }
{
    for (k, old) in order.olds.iter().enumerate() {
        put_node(order.problem, order.news, *old, out, 9 + 24 * k);
    }
}

// All roots, in their places.
fn put_roots(problem: &[u8], news: &[u16], out: &mut [u8])
    requires { Numbered problem.now news.now (length out.old) }
    ensures { out.new ≡ laid out.old (9 + 24 * node_count problem.now) (joined (root_bytes problem.now) (root_count problem.now)) }
{
    let start = 9 + 24 * usize::from(node_count(problem));
    for j in 0..root_count(problem) {
        let id = new_of(news, root_at(problem, j));
        put_u16(out, start + 2 * usize::from(j), id);
    }
}

// The mended file.
pub(crate) fn put_file(order: &Order, out: &mut [u8])
    requires { Writable order.now.problem.now (length out.old) }
    ensures { out.new ≡ laid out.old 0 (mended order.now.problem.now) }
{
    put_bytes(out, 0, &order.problem[..9]);
    put_nodes(order, out);
    put_roots(order.problem, order.news, out);
}

// The map.
pub(crate) fn put_map(olds: &[u16], map: &mut [u16])
    requires { length olds.now ≤ length map.old }
    ensures { map.new ≡ laid map.old 0 olds.now }
{
    map[..olds.len()].copy_from_slice(olds);
}
