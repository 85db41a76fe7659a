// One step of a move, at one node: its candidates, the one that is followed, and the pick there.
ghost use Rattle.std.specs.Prelude.{◌≡◌, ◌/◌, ◌%◌, ◌≤◌, ◌<◌, length, get_or};
ghost use Rattle.picking.specs.Spot.{positions, Candidate, Asked};
ghost use Rattle.essentials.specs.inner.Marks.{Marks};
ghost use Rattle.moves.specs.Step.{Step as StepMade, Follows};
ghost use Rattle.moves.specs.inner.Moves.{out_of, way_out, listed, Open, FixedPast, Stepping};

use crate::tape::Draw;
use essentials::{essential_positions, marks};
use picking::{Spot, pick_consistent, pick_inverse};

// The position numbered k among those that a number m marks, for each k and m: in the k-th sixteen bits the m-th two.
const PLACES: u64 = 0x8000_6840_1210;

// The position that a step follows, and the value that is picked there.
#[derive(Clone, Copy, Debug, PartialEq, Eq)]
pub(crate) struct Way {
    pub position: u32,
    pub value: u64,
}

// The positions whose operand is not fully fixed, each a bit. (Those that the kind has not hold pairs that are.)
fn open_positions(s: Spot) -> u32
    requires { FixedPast s }
    ensures { Marks (Open s) (positions s) result }
{
    let lo = s.los;
    let hi = s.his;
    marks(lo.a != hi.a, lo.b != hi.b, lo.c != hi.c)
}

// How many positions m marks.
#[tactic(auto, using(crate::proofs::Steps::ones_are))]
fn count(m: u32) -> u64
    requires { m < 8 }
    ensures { result ≡ length (listed m) }
{
    u64::from(m.count_ones())
}

// "Candidates are the essential positions if there are any, else all; then those whose operand is fully fixed are dropped."
fn candidates(s: Spot, t: u64) -> u32
    requires { Stepping s t }
    ensures { Marks (Candidate s t) (positions s) result }
{
    // Where one is open, or none, the others stand as they are: it is essential if any position is, so nothing need be asked.
    let opens = open_positions(s);
    if count(opens) <= 1 {
        return opens;
    }
    let essentials = essential_positions(s, t);
    if essentials == 0 {
        return opens;
    }
    essentials & opens
}

// The position numbered k among those that m marks. (Looked up: which one it is, no branch would guess.)
fn numbered(m: u32, k: u64) -> u32
    requires { (m < 8) × (k < length (listed m)) }
    ensures { result ≡ get_or (listed m) k 0 }
{
    ((PLACES >> (2 * m + 16 * (k as u32))) % 4) as u32
}

// "If e is even and the inverse set has members, pick there with p; otherwise pick in the consistent set."
#[tactic(auto, using(crate::proofs::Steps::follows_consistent))]
fn pick_at(s: Spot, t: u64, draw: Draw, i: u32) -> Option<u64>
    requires { Asked s i t }
    ensures { Follows s t draw.e draw.p i (out_of i result) }
{
    if draw.e % 2 == 0 {
        let found = pick_inverse(s, i, t, draw.p);
        if let Some(v) = found {
            return Some(v);
        }
    }
    pick_consistent(s, i, t, draw.p)
}

// Which of so many candidates is followed: "(e div 2) modulo their count". There are at most three, and to divide by a number
// that is known takes no division.
fn chosen(e: u64, n: u64) -> u64
    requires { (0 < n) × (n ≤ 3) }
    ensures { result ≡ e / 2 % n }
{
    match n {
        1 => 0,
        2 => e / 2 % 2,
        _ => e / 2 % 3,
    }
}

// None where the move ends blocked. "None left: the move ends blocked. Else the candidate numbered (e div 2) modulo their count .. is followed."
pub(crate) fn step(s: Spot, t: u64, draw: Draw) -> Option<Way>
    requires { Stepping s t }
    ensures { StepMade s t draw.e draw.p (way_out result) }
{
    let m = candidates(s, t);
    let n = count(m);
    if n == 0 {
        return None;
    }
    let k = chosen(draw.e, n);
    let position = numbered(m, k);
    // As a `let` with `else`, which is the form of each pick that may find nothing.
    let found = pick_at(s, t, draw, position);
    let Some(value) = found else {
        return None;
    };
    Some(Way { position, value })
}
