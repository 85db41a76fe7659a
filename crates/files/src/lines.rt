// The lines of an answer, as document 01 has `tvrun` print them.
ghost use Rattle.std.specs.Prelude.{◌≡◌, ◌+◌, ◌*◌, ◌≤◌, length};
ghost use Rattle.search.specs.declared.Outcome.TheVariants.{Refused};
ghost use Rattle.files.specs.Laid.{Laid};
ghost use Rattle.files.specs.Text.{name_of, refused_line, verdict_line, variable_line, node_line, lines_below, printed};
ghost use Rattle.files.specs.inner.Told.{NodesThere, Puts};

use crate::text::Text;
use operators::kind;
use problem::{Refusal, node_at, node_count};
use search::{Answer, Outcome, Verdict};

// `refused NUMBER at PLACE`
fn put_refusal(text: &mut Text, refusal: Refusal)
    ensures { Puts (refused_line (Refused refusal)) text.old text.new }
{
    text.put_labelled(b"refused ", u64::from(refusal.number));
    text.put_labelled(b" at ", u64::from(refusal.place));
    text.put(b"\n");
}

// The verdict's name.
fn name(verdict: Verdict) -> &'static [u8]
    ensures { result.now ≡ name_of verdict }
{
    match verdict {
        Verdict::Model => b"model",
        Verdict::Spent => b"spent",
        Verdict::Ended => b"ended",
        Verdict::Closed => b"closed",
    }
}

// `verdict NAME moves M steps S words W`
fn put_verdict(text: &mut Text, answer: Answer, verdict: Verdict)
    ensures { Puts (verdict_line answer verdict) text.old text.new }
{
    text.put(b"verdict ");
    text.put(name(verdict));
    text.put_labelled(b" moves ", answer.moves);
    text.put_labelled(b" steps ", answer.steps);
    text.put_labelled(b" words ", answer.words);
    text.put(b"\n");
}

// `ID VALUE`
fn put_variable(text: &mut Text, id: u16, value: u64)
    ensures { Puts (variable_line id value) text.old text.new }
{
    text.put_decimal(u64::from(id));
    text.put_labelled(b" ", value);
    text.put(b"\n");
}

// Node i's line: a variable has one, with 0 where there is no place for its value.
// (A problem's bytes and values as they are lent, here and below: a refused problem has no view.)
fn put_node(text: &mut Text, problem: &[u8], values: &[u64], i: u16)
    requires { 9 + 24 * i + 24 ≤ length problem.now }
    ensures { Puts (node_line problem.now values.now i) text.old text.new }
{
    if node_at(problem, i).kind == kind::VARIABLE {
        let value = values.get(usize::from(i)).copied().unwrap_or(0);
        put_variable(text, i, value);
    }
}

// The lines of all variables, by id.
fn put_nodes(text: &mut Text, problem: &[u8], values: &[u64], count: u16)
    requires { 9 + 24 * count ≤ length problem.now }
    ensures { Puts (lines_below problem.now values.now count) text.old text.new }
{
    for i in 0..count {
        put_node(text, problem, values, i);
    }
}

// What is printed of an answer.
fn put_answer(text: &mut Text, problem: &[u8], values: &[u64], answer: Answer)
    requires { NodesThere problem.now answer }
    ensures { Puts (printed problem.now values.now answer) text.old text.new }
{
    match answer.outcome {
        Outcome::Refused(refusal) => put_refusal(text, refusal),
        Outcome::Settled(verdict) => {
            put_verdict(text, answer, verdict);
            put_nodes(text, problem, values, node_count(problem));
        }
    }
}

// Puts what is printed of an answer at the start of out, as much of it as fits, and answers how many bytes that is.
pub(crate) fn text_of(problem: &[u8], values: &[u64], answer: Answer, out: &mut [u8]) -> usize
    requires { NodesThere problem.now answer }
    ensures { Laid (printed problem.now values.now answer) 0 out.old out.new result }
{
    let mut text = Text { out, used: 0 };
    put_answer(&mut text, problem, values, answer);
    text.used
}
