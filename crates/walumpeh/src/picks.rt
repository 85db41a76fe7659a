// Picks and essential positions of a single node, from numbers.
ghost use Rattle.std.specs.Prelude.{◌≡◌, ◌%◌, ◌^◌, ◌≤◌, get_or};
ghost use Rattle.words.specs.Pick.{Picked};
ghost use Rattle.picking.specs.Spot.{at};
ghost use Rattle.walumpeh.specs.Calls.{SetOf, three_from, spot_from, PickCode, EssentialCode};

use crate::offered::{Question, is_offered};
use picking::{Spot, Three};

// The word at a place, and 0 past the end.
// (One line of the library, as `byte_at` is of bytes: one for both would be no plainer.)
fn word(s: &[u64], k: usize) -> u64
    ensures { result ≡ get_or s.now k 0 }
{
    s.get(k).copied().unwrap_or(0)
}

// Three words from a place on.
fn three(s: &[u64], k: usize) -> Three
    requires { k ≤ 9 }
    ensures { result ≡ three_from s.now k }
{
    Three {
        a: word(s, k),
        b: word(s, k + 1),
        c: word(s, k + 2),
    }
}

// The node of twelve words: of its positions the widths, los, his and current values.
fn spot(kind: u8, width: u32, low: u32, node: &[u64]) -> Spot
    ensures { result ≡ spot_from kind width low node.now }
{
    Spot {
        kind,
        width,
        low,
        widths: three(node, 0),
        los: three(node, 3),
        his: three(node, 6),
        current: three(node, 9),
    }
}

// The pick from the set that is asked for. C tells it by a number, so `which` is none of an enum.
fn picked(q: &Question, proposal: u64, which: u8) -> Option<u64>
    ensures { Picked (SetOf which q.now.spot q.now.target q.now.position) (proposal % 2 ^ at q.now.spot.widths q.now.position) result }
{
    if which == 0 {
        picking::pick_inverse(q.spot, q.position, q.target, proposal)
    } else {
        picking::pick_consistent(q.spot, q.position, q.target, proposal)
    }
}

// 1 where the position is essential, 0 where it is not, 2 where no accepted problem has such a node.
// (Its parameters are those of the C interface.)
#[unsafe(no_mangle)]
pub extern "C" fn wal_essential(
    kind: u8,
    width: u32,
    low: u32,
    node: &[u64],
    position: u32,
    target: u64,
) -> u8
    ensures { EssentialCode (spot_from kind width low node.now) position target result }
{
    let spot = spot(kind, width, low, node);
    if !is_offered(spot, position, target) {
        return 2;
    }
    let q = Question {
        spot,
        position,
        target,
    };
    u8::from(essentials::essential(q.spot, q.position, q.target))
}

// The pick from the inverse set (which is 0) or the consistent set: 1 with the value in out's first place, 0 where the set
// is empty, 2 where no accepted problem has such a node or out has no place.
// (Its parameters are those of the C interface.)
#[unsafe(no_mangle)]
pub extern "C" fn wal_pick(
    kind: u8,
    width: u32,
    low: u32,
    node: &[u64],
    position: u32,
    target: u64,
    proposal: u64,
    which: u8,
    out: &mut [u64],
) -> u8
    ensures { PickCode (spot_from kind width low node.now) position target proposal which out.old out.new result }
{
    if out.is_empty() {
        return 2;
    }
    let spot = spot(kind, width, low, node);
    if !is_offered(spot, position, target) {
        return 2;
    }
    let q = Question {
        spot,
        position,
        target,
    };
    let Some(v) = picked(&q, proposal, which) else {
        return 0;
    };
    out[0] = v;
    1
}
