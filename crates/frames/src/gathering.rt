// The gathering, after the starts were made: each model in turn is kept, or is a repeat, or is left out.
ghost use Rattle.std.specs.Prelude.{◌≡◌, ◌<◌, length};
ghost use Rattle.words.specs.inner.Decides.{Decides};
ghost use Rattle.frames.specs.Bench.{Alike};
ghost use Rattle.frames.specs.inner.Bench.{NamesBelow, Compared, AgreesIn, Taking, Taken, Lent, Tallied};

use crate::made::Made;

// "keeps up to 64 solutions".
pub(crate) const MOST: usize = 64;

// How many are kept, repeats, unkept, so far.
#[derive(Clone, Copy, Debug, PartialEq, Eq)]
pub(crate) struct Tally {
    pub kept: u64,
    pub repeats: u64,
    pub unkept: u64,
}

// Whether two solutions agree on all named variables.
fn alike(names: &[u16], one: &[u64], other: &[u64]) -> bool
    requires named { NamesBelow names.now (length one.now) }
    requires long { length one.now ≡ length other.now }
    ensures { Decides (Alike names.now one.now other.now) result }
{
    names
        .iter()
        .all(|id| one[usize::from(*id)] == other[usize::from(*id)])
}

// Whether a solution agrees with one of those that are kept.
// (By number: the kept ones lie one after another in the lent places, and `held`, which `Tally` counts, is how many of them are.)
fn repeats(names: &[u16], solution: &[u64], kept: &[u64], held: usize) -> bool
    requires { Compared names.now solution.now kept.now held }
    ensures { Decides (AgreesIn names.now kept.now held solution.now) result }
{
    let n = solution.len();
    for j in 0..held {
        if alike(names, &kept[j * n..j * n + n], solution) {
            return true;
        }
    }
    false
}

// Copies the words of one list into another of the same length.
// (By number, and not by `copy_from_slice`: of two lists that C lends, and of a length that is not known before, that becomes a call
// of C's `memmove`, which the archive would then ask of whoever links it.)
fn copy(from: &[u64], to: &mut [u64])
    requires { length from.now ≡ length to.old }
    ensures { to.new ≡ from.now }
{
    for i in 0..from.len() {
        to[i] = from[i];
    }
}

// A model: "one that agrees counts as a repeat, room or not"; it is kept while there is room; "the rest count as unkept".
#[tactic(auto, using(crate::proofs::Keeping::taken_again, crate::proofs::Keeping::taken_out, crate::proofs::Keeping::kept_there))]
fn take_model(names: &[u16], solution: &[u64], kept: &mut [u64], tally: Tally) -> Tally
    requires { Taking names.now solution.now kept.old tally }
    ensures { Taken names.now solution.now kept.old tally kept.new result }
{
    let held = tally.kept as usize;
    if repeats(names, solution, kept, held) {
        return Tally {
            repeats: tally.repeats + 1,
            ..tally
        };
    }
    if MOST <= held {
        return Tally {
            unkept: tally.unkept + 1,
            ..tally
        };
    }
    let from = held * solution.len();
    copy(solution, &mut kept[from..from + solution.len()]);
    Tally {
        kept: tally.kept + 1,
        ..tally
    }
}

// All starts, in the order given: a start without a model is passed over.
pub(crate) fn gather_models(made: Made, names: &[u16], kept: &mut [u64]) -> Tally
    requires { Lent made.problem.now names.now kept.old }
    ensures { Tallied made.entry.problem.now made.entry.starts names.now made.entry.values.now made.entry.answers.now kept.old kept.new result }
{
    let mut tally = Tally {
        kept: 0,
        repeats: 0,
        unkept: 0,
    };
    for k in 0..made.starts {
        if made.is_model(k) {
            tally = take_model(names, made.solution(k), kept, tally);
        }
    }
    tally
}
