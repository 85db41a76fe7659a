// A shuffled problem put in order, an entry point: request R-12.
#![tactic(auto)]

ghost use Rattle.mending.specs.Refusals.{Mends};
ghost use Rattle.mending.specs.inner.Mending.{Blank, Finishes};

mod answers;
mod faults;
mod order;
mod readers;
mod writing;

use answers::fault_after;
use faults::fault_before;
use order::{Order, UNPLACED, find_order};
use problem::{Refusal, node_count};
use writing::{put_file, put_map};

// What follows once nodes are placed: a refusal, or the file and the map.
fn finish(order: &Order, out: &mut [u8], map: &mut [u16]) -> Result<(), Refusal>
    ensures { Finishes order.now.problem.now out.old map.old out.new map.new result }
{
    fault_after(order, out.len(), map.len())?;
    put_file(order, out);
    put_map(order.olds, map);
    Ok(())
}

// Nodes placed in lent places, and what follows.
// (news and olds, here and in find_order: they are written there, before `Order` holds them.)
fn arrange(
    problem: &[u8],
    news: &mut [u16],
    olds: &mut [u16],
    out: &mut [u8],
    map: &mut [u16],
) -> Result<(), Refusal>
    requires { Blank problem.now news.old olds.old }
    ensures { Finishes problem.now out.old map.old out.new map.new result }
{
    let n = usize::from(node_count(problem));
    find_order(problem, &mut news[..n], &mut olds[..n]);
    let order = Order {
        problem,
        news: &news[..n],
        olds: &olds[..n],
    };
    finish(&order, out, map)
}

// The mender: the problem's nodes in an order in which operands come first, and for each new id the old one. Refused, both
// outputs stay as they were; what lies beyond the file and the map stays in any case.
pub fn mend(problem: &[u8], out: &mut [u8], map: &mut [u16]) -> Result<(), Refusal>
    ensures { Mends problem.now out.old map.old out.new map.new result }
{
    fault_before(problem)?;
    let mut news = [UNPLACED; 1024];
    let mut olds = [0; 1024];
    arrange(problem, &mut news, &mut olds, out, map)
}
