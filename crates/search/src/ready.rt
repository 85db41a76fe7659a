// What a run needs of a problem.
use nodes::Pairs;
use problem::Problem;

/// What `prepare` works out of a problem once for all its starts: the pairs, the slots of its index of readers, and whether a root is
/// fixed at 0.
// (`closed` is no flag of a value that may be missing: pairs and slots are there either way, and a start is checked before it is asked.)
#[derive(Clone, Copy, Debug)]
pub struct Ready<'a> {
    pub pairs: Pairs<'a>,
    pub slots: &'a [u16],
    pub closed: bool,
}

impl<'a> Ready<'a> {
    ghost use Rattle.std.specs.Prelude.{◌≡◌};
    ghost use Rattle.nodes.specs.inner.Nodes.{Filled};

    /// A problem, and what `prepare` worked out of it, in one view.
    // (A function, and no literal where they are worked out: there each is lent for a time of its own.)
    pub fn of(
        problem: Problem<'a>,
        los: &'a [u64],
        his: &'a [u64],
        slots: &'a [u16],
        closed: bool,
    ) -> Ready<'a>
        requires { Filled problem.bytes.now los.now his.now }
        ensures problem { result.pairs.problem ≡ problem.entry }
        ensures los { result.pairs.los ≡ los.entry }
        ensures his { result.pairs.his ≡ his.entry }
        ensures slots { result.slots ≡ slots.entry }
        ensures closed { result.closed ≡ closed }
    {
        Ready {
            pairs: Pairs { problem, los, his },
            slots,
            closed,
        }
    }
}
