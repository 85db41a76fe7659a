// The table of refusals, 1 to 13 of document 01 and 20 of 02: a test for each line, and the first line that is given.
ghost use Rattle.std.specs.Prelude.{ℕ, ◌<◌, ◌≡◌, cond, ◌+◌, ◌*◌, ◌^◌, ◌≤◌, leb, length};
ghost use Rattle.problem.specs.Faults.{fault_number};
ghost use Rattle.problem.specs.Layout.{node_count, root_count};
ghost use Rattle.problem.specs.Refusals.{Checked, Accepted, mark_wrong, division_wide, operand_above, stray_field, pair_broken, header_fault, fault_of, node_fault, root_fault, first_below, refusal, ◌then◌};

use crate::Refusal;
use crate::fault::Fault;
use crate::layout::{
    Node, byte_at, node_at, node_count, root_at, root_count, version_of, width_at,
};
use operators::{KINDS, kind, rule_holds, shape_of};

/// A line of the table, after what the lines before it gave: the first refusal stays.
pub fn line(before: Result<(), Refusal>, number: u8, given: bool, place: u16) -> Result<(), Refusal>
    ensures { result ≡ (before then cond given (refusal number place) Accepted) }
{
    before?;
    if given {
        return Err(Refusal { number, place });
    }
    Ok(())
}

/// The refusal for a fault at a place, where it is given: a line of the table, where `?` has let nothing through that came before it.
pub fn refuse_if(given: bool, fault: Fault, place: u16) -> Result<(), Refusal>
    ensures { result ≡ cond given (refusal (fault_number fault) place) Accepted }
{
    let why = fault.at(place);
    line(Ok(()), why.number, given, why.place)
}

/// The first refusal of test(0), .., test(count - 1).
#[tactic(auto, using(crate::proofs::Stops::stops))]
pub fn first_refusal<F: Fn(u16) -> Result<(), Refusal>>(count: u16, test: F) -> Result<(), Refusal>
    ghost of: { ℕ → Checked }
    requires callable { (i : ℕ) → i < count → F.pre test i }
    requires tests { (i : ℕ) (r : _) → i < count → F.post test i r → r ≡ of i }
    ensures { result ≡ first_below of count }
{
    for i in 0..count {
        test(i)?;
    }
    Ok(())
}

// 2: the mark is not `TBV`.
#[tactic(auto, unfolding(crate::specs::Refusals::mark_wrong))]
fn mark_wrong(problem: &[u8]) -> bool
    ensures { result ≡ mark_wrong problem.now }
{
    (byte_at(problem, 0) != b'T') | (byte_at(problem, 1) != b'B') | (byte_at(problem, 2) != b'V')
}

// 1 to 6.
#[tactic(auto, unfolding(crate::specs::Refusals::header_fault, crate::specs::Refusals::header_lines, crate::specs::Refusals::first_of))]
pub fn header_fault(problem: &[u8]) -> Result<(), Refusal>
    ensures { result ≡ header_fault problem.now }
{
    let nodes = node_count(problem);
    let roots = root_count(problem);
    let long = 9 + 24 * usize::from(nodes) + 2 * usize::from(roots);
    refuse_if(problem.len() < 9, Fault::Short, 0)?;
    refuse_if(mark_wrong(problem), Fault::Mark, 0)?;
    refuse_if(version_of(problem) != 1, Fault::Version, 0)?;
    refuse_if(1024 < nodes, Fault::Nodes, 0)?;
    refuse_if(256 < roots, Fault::Roots, 0)?;
    refuse_if(problem.len() != long, Fault::Length, 0)
}

// 20: kind 17 with a width over 16.
#[tactic(auto, unfolding(crate::specs::Refusals::division_wide))]
fn division_wide(n: Node) -> bool
    ensures { result ≡ division_wide n }
{
    (n.kind == kind::UDIV) & (16 < n.width)
}

// 9: an operand's id is not below the node's own.
#[tactic(auto, unfolding(crate::specs::Refusals::operand_above))]
pub fn operand_above(n: Node, operands: u8, id: u16) -> bool
    ensures { result ≡ operand_above n operands id }
{
    ((0 < operands) & (id <= n.a)) | ((1 < operands) & (id <= n.b)) | ((2 < operands) & (id <= n.c))
}

// 10: a field that the kind does not use is not zero, or lo or hi is not zero in a kind from 2 on.
#[tactic(auto, unfolding(crate::specs::Refusals::stray_field))]
fn stray_field(n: Node, fields: u8) -> bool
    ensures { result ≡ stray_field n fields }
{
    ((fields <= 0) & (n.a != 0))
        | ((fields <= 1) & (n.b != 0))
        | ((fields <= 2) & (n.c != 0))
        | ((kind::NOT <= n.kind) & ((n.lo != 0) | (n.hi != 0)))
}

// Whether x is 2^w or more.
#[tactic(auto, using(crate::proofs::Shifted::shifted_out, crate::proofs::Shifted::wide_enough))]
pub fn over_width(x: u64, w: u8) -> bool
    ensures { result ≡ leb (2 ^ w) x }
{
    if w < 64 {
        return (x >> w) != 0;
    }
    false
}

// 12: kind 0 or 1: lo has a bit outside hi, or hi is 2^w or more, or a constant has lo and hi apart.
#[tactic(auto, unfolding(crate::specs::Refusals::pair_broken, crate::specs::Refusals::bit_outside))]
fn pair_broken(n: Node) -> bool
    ensures { result ≡ pair_broken n }
{
    let over = over_width(n.hi, n.width);
    let apart = (n.kind == kind::CONSTANT) & (n.lo != n.hi);
    (n.kind <= kind::CONSTANT) & (((n.lo & n.hi) != n.lo) | over | apart)
}

// 7 to 12, and 20 after 8, of a node, its id and its operands' widths.
#[tactic(auto, unfolding(crate::specs::Refusals::fault_of, crate::specs::Refusals::node_lines, crate::specs::Refusals::first_of))]
fn fault_of(n: Node, id: u16, wa: u8, wb: u8, wc: u8) -> Result<(), Refusal>
    ensures { result ≡ fault_of n id wa wb wc }
{
    let shape = shape_of(n.kind);
    let rule = shape.rule;
    refuse_if(KINDS <= n.kind, Fault::Kind, id)?;
    refuse_if((n.width == 0) | (64 < n.width), Fault::Width, id)?;
    refuse_if(division_wide(n), Fault::Division, id)?;
    refuse_if(operand_above(n, shape.operands, id), Fault::Operand, id)?;
    refuse_if(stray_field(n, shape.fields), Fault::Field, id)?;
    refuse_if(!rule_holds(rule, n.width, wa, wb, wc, n.b), Fault::Rule, id)?;
    refuse_if(pair_broken(n), Fault::Pair, id)
}

// 7 to 12, of node i.
#[tactic(auto, unfolding(crate::specs::Refusals::node_fault))]
pub fn node_fault(problem: &[u8], i: u16) -> Result<(), Refusal>
    requires { 9 + 24 * i + 24 ≤ length problem.now }
    ensures { result ≡ node_fault problem.now i }
{
    let n = node_at(problem, i);
    let wa = width_at(problem, n.a);
    let wb = width_at(problem, n.b);
    let wc = width_at(problem, n.c);
    fault_of(n, i, wa, wb, wc)
}

// 7 to 12, node by node in ascending id.
// (Here and for 13 one call of `first_refusal`, named for what it promises: no plainer as one.)
pub(crate) fn nodes_fault(problem: &[u8]) -> Result<(), Refusal>
    requires { 9 + 24 * node_count problem.now ≤ length problem.now }
    ensures { result ≡ first_below (node_fault problem.now) (node_count problem.now) }
{
    first_refusal(node_count(problem), |i| node_fault(problem, i))
}

// 13, of root j.
#[tactic(auto, unfolding(crate::specs::Refusals::root_fault, crate::specs::Refusals::root_lines, crate::specs::Refusals::first_of))]
fn root_fault(problem: &[u8], j: u16) -> Result<(), Refusal>
    ensures { result ≡ root_fault problem.now j }
{
    let id = root_at(problem, j);
    refuse_if(
        (node_count(problem) <= id) | (width_at(problem, id) != 1),
        Fault::Root,
        j,
    )
}

// 13, root by root in file order.
pub(crate) fn roots_fault(problem: &[u8]) -> Result<(), Refusal>
    ensures { result ≡ first_below (root_fault problem.now) (root_count problem.now) }
{
    first_refusal(root_count(problem), |j| root_fault(problem, j))
}
