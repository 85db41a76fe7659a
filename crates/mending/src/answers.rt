// The refusals that come after nodes are placed: 22, then those of the problem check of the mended file, then 25.
ghost use Rattle.std.specs.Prelude.{◌≡◌, length, get_or};
ghost use Rattle.mending.specs.Refusals.{circle_fault, at_old, mended_fault, fault_after};
ghost use Rattle.mending.specs.inner.Order.{AllPlaced};
ghost use Rattle.mending.specs.inner.Mending.{Ordered, Writable};

use crate::order::{Order, lowest_unplaced};
use crate::writing::put_file;
use problem::{Fault, Refusal, check, node_count, refuse_if};

/// The bytes of the longest file: 1,024 nodes and 256 roots.
const LONGEST: usize = 9 + 24 * 1024 + 2 * 256;

// 22.
fn circle_fault(problem: &[u8], news: &[u16]) -> Result<(), Refusal>
    requires { Ordered problem.now news.now }
    ensures { result ≡ circle_fault problem.now }
{
    let n = node_count(problem);
    let id = lowest_unplaced(news, n);
    refuse_if(id < n, Fault::Circle, id)
}

// An entry of the map, and 0 past its end, as `at_old` has it.
// (One line of the library, named, as `held` in `models`: one for both would be no plainer.)
fn old_at(olds: &[u16], k: u16) -> u16
    ensures { result ≡ get_or olds.now k 0 }
{
    olds.get(usize::from(k)).copied().unwrap_or(0)
}

// A refusal of the mended file, with the old id as a node's place: up to 12 the place is a node, and a root's position after it.
// (A refusal tells its number, which the definition `at_old` compares.)
#[tactic(auto, using(crate::specs::laws::Faults::old_node, crate::specs::laws::Faults::old_root))]
fn at_old(olds: &[u16], found: Result<(), Refusal>) -> Result<(), Refusal>
    ensures { result ≡ at_old olds.now found }
{
    let Err(refusal) = found else {
        return Ok(());
    };
    if refusal.number <= Fault::Pair.number() {
        let place = old_at(olds, refusal.place);
        return Err(Refusal {
            number: refusal.number,
            place,
        });
    }
    found
}

// The problem check of the mended file, written into lent bytes that nobody reads afterwards.
fn check_in(order: &Order, file: &mut [u8]) -> Result<(), Refusal>
    requires { Writable order.now.problem.now (length file.old) }
    ensures { result ≡ mended_fault order.now.problem.now }
{
    put_file(order, file);
    let to = order.problem.len();
    at_old(order.olds, check(&file[..to]))
}

// The same in bytes of its own, as nothing is written where anything is refused.
fn mended_fault(order: &Order) -> Result<(), Refusal>
    requires { AllPlaced order.now.problem.now }
    ensures { result ≡ mended_fault order.now.problem.now }
{
    let mut file = [0u8; LONGEST];
    check_in(order, &mut file)
}

// What is tried once nodes are placed, of a call that lends so much room for the file and so many rows for the map.
#[tactic(auto, unfolding(crate::specs::Refusals::fault_after, crate::specs::Refusals::room_fault, problem::specs::Refusals::first_of))]
pub(crate) fn fault_after(order: &Order, room: usize, rows: usize) -> Result<(), Refusal>
    ensures { result ≡ fault_after order.now.problem.now room rows }
{
    let problem = order.problem;
    circle_fault(problem, order.news)?;
    mended_fault(order)?;
    let short = (room < problem.len()) | (rows < usize::from(node_count(problem)));
    refuse_if(short, Fault::Output, 0)
}
