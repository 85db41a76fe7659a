// Moves of document 01: from an unsatisfied root entry down to a variable, step by step, and up again to all that lies above it.
#![tactic(auto)]

ghost use Rattle.std.specs.Prelude.{◌+◌, drop, length};
ghost use Rattle.evaluation.specs.inner.Readers.{Indexed};
ghost use Rattle.moves.specs.Moves.{Walk, Move};
ghost use Rattle.moves.specs.inner.Moves.{prob_in, Walking, Drawing, end_of, Placed, Turned};

mod roots;
mod step;
mod tape;
mod turn;
mod view;

use evaluation::{Readers, evaluate_above};
use nodes::operand;
use operators::kind;
use roots::nth_unsatisfied;
pub use roots::{closed_root, count_unsatisfied};
use step::step;
pub use tape::Tape;
pub use turn::Turn;
use turn::{Setting, Stop};
pub use view::Prepared;

// Down from a node whose target is 1, with the words of the tape; None where the tape cannot serve a draw whole.
// (values apart from `Prepared`, here and below: a move that is finished sets one.)
fn walk(run: &Prepared, values: &[u64], tape: Tape, from: u16, made: u64) -> Option<Stop>
    requires { Walking run.now values.now tape from made }
    ensures walk { Walk (prob_in run.now) values.now from 1 (drop tape.entry.at tape.entry.words.now) made (end_of tape.entry.words.now result) }
    ensures placed { Placed (length tape.entry.words.now) tape.entry.at made result }
{
    let mut rest = tape;
    let mut n = from;
    let mut t = 1;
    let mut steps = made;
    // (A `loop`: no count ends it, but a variable, a step that finds nothing, or the tape's end.)
    loop {
        let node = run.pairs.problem.node(n);
        if node.kind == kind::VARIABLE {
            let set = Some(Setting { node: n, value: t });
            return Some(Stop {
                set,
                steps,
                next: rest.at,
            });
        }
        let draw = rest.draw_two()?;
        let spot = run.pairs.spot(values, node);
        let followed = step(spot, t, draw);
        steps += 1;
        let Some(way) = followed else {
            return Some(Stop {
                set: None,
                steps,
                next: rest.at,
            });
        };
        n = operand(node, way.position);
        t = way.value;
    }
}

// "A move reads one word, modulo the number of unsatisfied root entries, to take one of them in file order; its target is 1."
fn make_move(run: &Prepared, values: &[u64], tape: Tape, count: u64, made: u64) -> Option<Stop>
    requires { Drawing run.now values.now tape count made }
    ensures moved { Move (prob_in run.now) values.now (drop tape.entry.at tape.entry.words.now) made (end_of tape.entry.words.now result) }
    ensures placed { Placed (length tape.entry.words.now) (tape.entry.at + 1) made result }
{
    let mut rest = tape;
    let word = rest.draw()?;
    let problem = run.pairs.problem;
    let j = nth_unsatisfied(problem, values, count, word % count);
    walk(run, values, rest, problem.root(j), made)
}

/// A move and what follows: "the variable takes the target, all nodes are evaluated". Only nodes above it can change. None where
/// the tape cannot serve it, and it is unfinished.
pub fn finish_move(
    run: &Prepared,
    values: &mut [u64],
    tape: Tape,
    count: u64,
    made: u64,
) -> Option<Turn>
    requires drawing { Drawing run.now values.old tape count made }
    requires indexed { Indexed run.now.pairs.problem.bytes.now run.now.slots.now }
    ensures { Turned (prob_in run.now) values.old tape.entry.words.now tape.entry.at made values.new result }
{
    let stop = make_move(run, values, tape, count, made)?;
    let above = match stop.set {
        Some(set) => {
            values[usize::from(set.node)] = set.value;
            let readers = Readers {
                problem: run.pairs.problem,
                slots: run.slots,
            };
            evaluate_above(readers, values, set.node)
        }
        None => 0,
    };
    Some(Turn {
        above,
        steps: stop.steps,
        next: stop.next,
    })
}
