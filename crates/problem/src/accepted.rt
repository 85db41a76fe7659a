// A problem that the check accepts, as a view of its bytes.
ghost use Rattle.std.specs.Prelude.{◌≡◌};
ghost use Rattle.problem.specs.Refusals.{Accepted, checked};

use crate::{Node, Refusal, check, layout, read_node};

/// The bytes of an accepted problem.
// (A view of what is lent, bytes, words or ids, is never compared, here and in the crates above: so no `PartialEq`.)
#[derive(Clone, Copy, Debug)]
pub struct Problem<'a> {
    pub bytes: &'a [u8],
    ghost accepted: { checked bytes.now ≡ Accepted },
}

// The readers of `layout` on bytes that are accepted: they ask less of who calls, or promise more.
impl<'a> Problem<'a> {
    ghost use Rattle.std.specs.Prelude.{◌≡◌, ◌<◌, ◌≤◌, IfOk, IfErr};
    ghost use Rattle.operators.specs.Table.{kind_count};
    ghost use Rattle.problem.specs.Layout.{node_count, node_at, width_at, root_count, root_at};
    ghost use Rattle.problem.specs.Refusals.{checked, refusal};

    /// The view of bytes that the check accepts, or the first refusal.
    pub fn parse(bytes: &'a [u8]) -> Result<Problem<'a>, Refusal>
        ensures accepted { IfOk result (λ p. p.bytes.now ≡ bytes.now) }
        ensures refused { IfErr result (λ r. checked bytes.now ≡ refusal r.number r.place) }
    {
        check(bytes)?;
        Ok(Problem { bytes })
    }

    /// How many nodes there are.
    pub fn node_count(self) -> u16
        ensures { result ≡ node_count self.entry.bytes.now }
    {
        layout::node_count(self.bytes)
    }

    /// Node i.
    #[tactic(auto, using(crate::proofs::View::kind_known, crate::proofs::View::width_some, crate::proofs::View::width_most))]
    pub fn node(self, i: u16) -> Node
        requires { i < node_count self.bytes.now }
        ensures node { result ≡ node_at self.entry.bytes.now i }
        ensures kind { result.kind < kind_count }
        ensures some { 1 ≤ result.width }
        ensures most { result.width ≤ 64 }
    {
        layout::node_at(self.bytes, i)
    }

    /// The width of node i.
    #[tactic(auto, using(crate::proofs::View::width_some, crate::proofs::View::width_most, crate::proofs::View::width_is))]
    pub fn width(self, i: u16) -> u8
        requires { i < node_count self.bytes.now }
        ensures width { result ≡ width_at self.entry.bytes.now i }
        ensures some { 1 ≤ result }
        ensures most { result ≤ 64 }
    {
        layout::width_at(self.bytes, i)
    }

    /// How many roots there are.
    pub fn root_count(self) -> u16
        ensures { result ≡ root_count self.entry.bytes.now }
    {
        layout::root_count(self.bytes)
    }

    /// Root j, a node's id.
    #[tactic(auto, using(crate::proofs::View::root_inside))]
    pub fn root(self, j: u16) -> u16
        requires { j < root_count self.bytes.now }
        ensures root { result ≡ root_at self.entry.bytes.now j }
        ensures inside { result < node_count self.entry.bytes.now }
    {
        layout::root_at(self.bytes, j)
    }
}
