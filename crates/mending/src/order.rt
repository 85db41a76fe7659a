// The order: always the lowest old id that is ready. New ids stand at the places of the old ones. The ready nodes are marks in a set;
// after a placing only the readers of what was placed are tried.
ghost use Rattle.std.specs.Prelude.{◌≡◌, cond, not};
ghost use Rattle.words.specs.inner.Marks.{with_mark};
ghost use Rattle.problem.specs.inner.Facts.{HeaderFacts};
ghost use Rattle.mending.specs.Order.{least, placed, ready};
ghost use Rattle.mending.specs.inner.Order.{Readable};
ghost use Rattle.mending.specs.inner.Chains.{Exact, Triable, Unmarked, Waking, Settling, Settled};
ghost use Rattle.mending.specs.inner.Mending.{Fresh, Waiting, Placed};

use crate::readers::{Chains, link_all};
use operators::operand_count;
use problem::{node_at, node_count};
use words::{lowest, mark, unmark};

/// Stands where an old id has no new one yet. The new ids are numbers of 16 bits, as `numbers` in specs/Order has them: in the fixed
/// memory an `Option<u16>` would double them.
pub(crate) const UNPLACED: u16 = 65535;

/// The order of a file: the new id of each old one, and the old id of each new one. What can be placed is.
#[derive(Clone, Copy, Debug)]
pub(crate) struct Order<'a> {
    pub problem: &'a [u8],
    pub news: &'a [u16],
    pub olds: &'a [u16],
    ghost header: { HeaderFacts problem.now },
    ghost placed: { Placed problem.now news.now olds.now },
}

/// A file and the chains of its readers.
// (No `Debug`: `Chains` has none.)
#[derive(Clone, Copy)]
pub(crate) struct Readers<'a> {
    pub problem: &'a [u8],
    pub chains: &'a Chains,
    ghost header: { HeaderFacts problem.now },
}

// Whether an old id has a new one. An id that no node has counts as placed, so that nobody has to ask.
#[tactic(auto, unfolding(crate::specs::Order::placed))]
fn is_placed(news: &[u16], id: u16) -> bool
    ensures { result ≡ placed news.now id }
{
    news.get(usize::from(id)).copied() != Some(UNPLACED)
}

// Whether node i waits to be placed and all its operands are.
#[tactic(auto, unfolding(crate::specs::Order::ready, crate::specs::Order::met))]
fn is_ready(problem: &[u8], news: &[u16], i: u16) -> bool
    requires { Readable problem.now i }
    ensures { result ≡ ready problem.now news.now i }
{
    let n = node_at(problem, i);
    let operands = operand_count(n.kind);
    let a = (operands <= 0) | is_placed(news, n.a);
    let b = (operands <= 1) | is_placed(news, n.b);
    let c = (operands <= 2) | is_placed(news, n.c);
    !is_placed(news, i) & (a & b & c)
}

// A mark for node i, if it is ready.
// (news and marks apart, here and below: here and in `wake` the one is read where the other is written, and `settle` lends them on.)
fn try_node(problem: &[u8], news: &[u16], marks: &mut [u64; 16], i: u16)
    requires { Triable problem.now i marks.old }
    ensures { marks.new ≡ cond (ready problem.now news.now i) (with_mark marks.old i) marks.old }
{
    if is_ready(problem, news, i) {
        mark(marks, i);
    }
}

// Marks for all nodes that are ready.
fn try_all(problem: &[u8], news: &[u16], marks: &mut [u64; 16])
    requires { Unmarked problem.now marks.old }
    ensures { Exact problem.now news.now marks.new }
{
    for i in 0..node_count(problem) {
        try_node(problem, news, marks, i);
    }
}

// Marks for the readers of x that are ready, down its chain: a `while`, as a chain has no range.
fn wake(readers: &Readers, news: &[u16], marks: &mut [u64; 16], x: u16)
    requires { Waking readers.now.problem.now readers.now.chains.now.heads readers.now.chains.now.nexts news.now marks.old x }
    ensures { Exact readers.now.problem.now news.now marks.new }
{
    let mut at = readers.chains.heads[usize::from(x)];
    while 0 < at {
        let slot = at - 1;
        try_node(readers.problem, news, marks, slot / 3);
        at = readers.chains.nexts[usize::from(slot)];
    }
}

// The new id k for the old one, if that is a node's; then the nodes that are ready are marked again.
fn settle(readers: &Readers, news: &mut [u16], marks: &mut [u64; 16], id: u16, k: u16)
    requires { Settling readers.now.problem.now readers.now.chains.now.heads readers.now.chains.now.nexts news.old marks.old id k }
    ensures { Settled readers.now.problem.now news.old id k news.new marks.new }
{
    let at = usize::from(id);
    if at < news.len() {
        news[at] = k;
        unmark(marks, id);
        wake(readers, news, marks, id);
    }
}

// As many placings as there are nodes: the new ids, and the old id of each. Where nothing is ready, the list of old ids has N.
// (N and no Option: so `least` and with it `old_ids` have it.)
fn place_all(readers: &Readers, news: &mut [u16], olds: &mut [u16])
    requires { Waiting readers.now.problem.now readers.now.chains.now.heads readers.now.chains.now.nexts news.old olds.old }
    ensures { Placed readers.now.problem.now news.new olds.new }
{
    let n = node_count(readers.problem);
    let mut marks = [0u64; 16];
    try_all(readers.problem, news, &mut marks);
    for k in 0..n {
        let id = lowest(&marks, 0).min(n);
        olds[usize::from(k)] = id;
        settle(readers, news, &mut marks, id, k);
    }
}

// The order of a file, in places of its own for the chains.
// (news and olds, here and in place_all: they are written, before `Order` holds them.)
pub(crate) fn find_order(problem: &[u8], news: &mut [u16], olds: &mut [u16])
    requires { Fresh problem.now news.old olds.old }
    ensures { Placed problem.now news.new olds.new }
{
    let mut chains = Chains {
        heads: [0; 1024],
        nexts: [0; 3072],
    };
    link_all(problem, &mut chains);
    let readers = Readers {
        problem,
        chains: &chains,
    };
    place_all(&readers, news, olds);
}

// The lowest old id below n that has no new one, and n where all have.
// (n and no Option, as `least` has it.)
pub(crate) fn lowest_unplaced(news: &[u16], n: u16) -> u16
    ensures { result ≡ least (λ i. not (placed news.now i)) n }
{
    (0..n).find(|i| !is_placed(news, *i)).unwrap_or(n)
}
