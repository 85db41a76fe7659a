// The C interface: the problem check, the run, many of them at once, how long a tape a run needs, the judgement of another
// solver's model, the mender, the frame bench, the conversion of BTOR2, and the picks of a single node, on numbers and slices.
// Nothing here trusts its caller: a word past the end of a slice reads as 0, and a node that no accepted problem has is refused.
#![tactic(auto)]

mod batch;
mod checks;
mod codes;
mod conversions;
mod gathers;
mod judgements;
mod mends;
mod needs;
mod offered;
mod picks;
mod runs;
