// A node as picking sees it, taken out of its problem.
ghost use Rattle.std.specs.Prelude.{◌≡◌};
ghost use Rattle.nodes.specs.inner.Nodes.{Spotted, spot_in};

use crate::operands::{held, widths_of};
use operators::operand_count;
use picking::Spot;
use problem::Node;

/// Of plain lists: it asks no more than that they have a place for each operand.
// (los and his and no `Pairs`: it asks less than that holds.)
#[tactic(auto, unfolding(crate::specs::inner::Nodes::spot_in))]
pub fn spot_of(bytes: &[u8], los: &[u64], his: &[u64], values: &[u64], n: Node) -> Spot
    requires { Spotted los.now his.now values.now n }
    ensures { result ≡ spot_in bytes.now los.now his.now values.now n }
{
    let count = operand_count(n.kind);
    Spot {
        kind: n.kind,
        width: u32::from(n.width),
        low: u32::from(n.b),
        widths: widths_of(bytes, n, count),
        los: held(los, n, count),
        his: held(his, n, count),
        current: held(values, n, count),
    }
}
