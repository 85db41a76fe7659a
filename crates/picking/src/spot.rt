// A node as picking sees it, taken out of its problem.
ghost use Rattle.std.specs.Prelude.{◌≡◌, ◌-◌};
ghost use Rattle.picking.specs.Spot.{at as standing};

// What stands at the positions a, b and c of a node.
#[derive(Clone, Copy, Debug, PartialEq, Eq)]
pub struct Three {
    pub a: u64,
    pub b: u64,
    pub c: u64,
}

// A node's kind, width and lowest bit (extract's field b), and of each position the operand's width, its pair and its
// current value. (What is known of one stands in one short clause, `Asked` or `Fair`, at each function: in a type round it the
// position and the target would still ask for their clauses, two in place of the one.)
#[derive(Clone, Copy, Debug, PartialEq, Eq)]
pub struct Spot {
    pub kind: u8,
    pub width: u32,
    pub low: u32,
    pub widths: Three,
    pub los: Three,
    pub his: Three,
    pub current: Three,
}

// What stands at position i: a, b, c are 0, 1, 2.
pub fn at(x: Three, i: u32) -> u64
    ensures { result ≡ standing x i }
{
    if i == 0 {
        return x.a;
    }
    if i == 1 {
        return x.b;
    }
    x.c
}

// What stands at the other of two positions.
pub(crate) fn other(x: Three, i: u32) -> u64
    ensures { result ≡ standing x (1 - i) }
{
    if i == 0 { x.b } else { x.a }
}
