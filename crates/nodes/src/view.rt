// The pairs of all nodes, as a view: a problem, and the lists that hold its nodes' lo and hi.
ghost use Rattle.nodes.specs.inner.Nodes.{Filled};

use crate::spot::spot_of;
use picking::Spot;
use problem::{Node, Problem};

/// An accepted problem, and all its pairs in the places of its nodes.
#[derive(Clone, Copy, Debug)]
pub struct Pairs<'a> {
    pub problem: Problem<'a>,
    pub los: &'a [u64],
    pub his: &'a [u64],
    ghost filled: { Filled problem.bytes.now los.now his.now },
}

impl<'a> Pairs<'a> {
    ghost use Rattle.std.specs.Prelude.{◌≡◌};
    ghost use Rattle.nodes.specs.inner.Nodes.{Spotted, spot_in};

    /// A node as picking sees it.
    pub fn spot(self, values: &[u64], n: Node) -> Spot
        requires { Spotted self.los.now self.his.now values.now n }
        ensures { result ≡ spot_in self.entry.problem.bytes.now self.entry.los.now self.entry.his.now values.now n }
    {
        spot_of(self.problem.bytes, self.los, self.his, values, n)
    }
}
