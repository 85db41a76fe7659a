// One pass over the nodes, in ascending id, so that a node comes after all that it reads: all of them are evaluated, or those that
// read a marked one. Both are one loop with one call of `taken_at`, which the compiler then makes part of it.
ghost use Rattle.std.specs.Prelude.{◌≤◌, ◌<◌, ◌^◌, length};
ghost use Rattle.nodes.specs.Problem.{problem as prob_of};
ghost use Rattle.nodes.specs.inner.Nodes.{is_all, Evaluable};
ghost use Rattle.evaluation.specs.inner.Evaluation.{Passed, Clear, Asked, Answered};

use nodes::{Scope, taken_at};
use problem::Problem;

// The nodes of a pass, from `first` up to `end`: all, or those above a variable, of which `first` is the first that reads it, and
// none stands at `end` or after it. (0 and no `Option` for the variable where all are evaluated: `Asked` has it so, and one loop
// serves both.)
#[derive(Clone, Copy, Debug, PartialEq, Eq)]
pub(crate) struct Span {
    pub scope: Scope,
    pub variable: u16,
    pub first: u16,
    pub end: u16,
}

// Node i evaluated and marked, if it is to be; and how many were.
// (values and marks are lent apart, here and below: they are written, so no view holds them.)
#[tactic(auto, using(crate::specs::laws::Passing::passed_over, crate::specs::laws::Passing::passed_on))]
fn pass_node(problem: Problem, values: &mut [u64], marks: &mut [u8], i: u16, scope: Scope) -> u64
    requires evaluable { Evaluable problem.bytes.now values.old i }
    requires marked { (prob_of problem.bytes.now).nodes ≤ length marks.old }
    ensures { Passed problem.entry.bytes.now i (is_all scope) values.old marks.old values.new marks.new result }
{
    let Some(x) = taken_at(problem, values, marks, i, scope) else {
        return 0;
    };
    values[usize::from(i)] = x;
    marks[usize::from(i)] = 1;
    1
}

// The nodes of a span evaluated. Answers how many these are, and the variable.
fn pass(problem: Problem, values: &mut [u64], marks: &mut [u8], span: Span) -> u64
    requires asked { Asked problem.bytes.now values.old span.variable span.first span.end (is_all span.scope) }
    requires clear { Clear problem.bytes.now marks.old }
    ensures { Answered problem.entry.bytes.now values.old span.variable (is_all span.scope) values.new result }
{
    marks[usize::from(span.variable)] = 1;
    let mut count = 1;
    for i in span.first..span.end {
        count += pass_node(problem, values, marks, i, span.scope);
    }
    count
}

// The same with marks of its own, of which there are N.
fn pass_in<const N: usize>(problem: Problem, values: &mut [u64], span: Span) -> u64
    requires asked { Asked problem.bytes.now values.old span.variable span.first span.end (is_all span.scope) }
    requires some { 0 < N }
    requires fits { N < 2 ^ 32 }
    requires room { (prob_of problem.bytes.now).nodes ≤ N }
    ensures { Answered problem.entry.bytes.now values.old span.variable (is_all span.scope) values.new result }
{
    let mut marks = [0u8; N];
    pass(problem, values, &mut marks, span)
}

// Few nodes need few marks.
pub(crate) fn pass_over(problem: Problem, values: &mut [u64], span: Span) -> u64
    requires { Asked problem.bytes.now values.old span.variable span.first span.end (is_all span.scope) }
    ensures { Answered problem.entry.bytes.now values.old span.variable (is_all span.scope) values.new result }
{
    if problem.node_count() <= 128 {
        pass_in::<128>(problem, values, span)
    } else {
        pass_in::<1024>(problem, values, span)
    }
}
