// The judgement, refusal by refusal.
ghost use Rattle.std.specs.Prelude.{◌≡◌, not, ◌≤◌, ◌<◌, length, get_or};
ghost use Rattle.problem.specs.Layout.{node_count, root_count};
ghost use Rattle.nodes.specs.Problem.{zeros};
ghost use Rattle.entries.specs.Names.{names};
ghost use Rattle.entries.specs.Entries.{is_model, entries};
ghost use Rattle.entries.specs.inner.Places.{word_in};
ghost use Rattle.models.specs.Judgement.{refuse, ◌next◌, first_said, contradicted_at, zero_at, judged_entries, judged};
ghost use Rattle.models.specs.inner.Judging.{said, root_said, told, is_contradicted, Kept, Read, placed_up, unmarked, unmarked_at, values_said};

use crate::Fault;
use crate::reason::{Reason, refuse_if};
use crate::variables::{Given, Variables};
use entries::{NameIndex, NameList, body_start, entry_at, is_model, item_at, name_at, read_names};
use evaluation::evaluate;
use operators::kind;
use problem::Problem;

// The ids of the variables, and how many there are.
// (Fixed places and a count of them: there is no heap.)
#[tactic(auto, using(crate::specs::laws::Variables::kept_none, crate::specs::laws::Variables::kept_more, crate::specs::laws::Variables::kept_same))]
fn read_variables(problem: Problem, ids: &mut [u16]) -> usize
    requires { length ids.old ≡ 1024 }
    ensures { Kept problem.entry.bytes.now ids.new (node_count problem.entry.bytes.now) result }
{
    let mut count = 0;
    for i in 0..problem.node_count() {
        if problem.node(i).kind == kind::VARIABLE {
            ids[count] = i;
            count += 1;
        }
    }
    count
}

// The word that an entry says, whether it fits or not.
fn word_in(item: Result<u64, u64>) -> u64
    ensures { result ≡ word_in item }
{
    match item {
        Ok(word) | Err(word) => word,
    }
}

// 32 to 34, entry by entry; the value of each goes to the place of its variable. 33 and 34 wait for the end, since each is tried
// over the whole text before the next.
// (A `while let`: how many entries there are is not known before.)
#[tactic(auto, using(crate::specs::laws::Variables::owner_few, crate::specs::laws::Variables::owner_held, crate::specs::laws::Variables::owner_node))]
fn read_entries(variables: &Variables, text: &[u8], given: &mut Given) -> Result<(), Fault>
    requires { (given.old.marks ≡ unmarked) × (given.old.words ≡ zeros) }
    ensures { Read variables.now.problem.bytes.now variables.now.index.names.list.now text.now given.new.marks given.new.words (said result) }
{
    let mut at = body_start(text);
    let mut k: u64 = 0;
    let mut again = Ok(());
    let mut unfit = Ok(());
    while let Some(entry) = entry_at(text, at) {
        let Some(owner) = variables.index.position(name_at(text, entry.name)) else {
            return Err(Reason::Unknown.at(k));
        };
        let width = variables.problem.width(variables.ids[owner]);
        let item = item_at(text, entry.sort, entry.value, width);
        again = again.and(refuse_if(given.marks[owner], Reason::Again, k));
        unfit = unfit.and(refuse_if(item.is_err(), Reason::Misfit, k));
        given.marks[owner] = true;
        given.words[owner] = word_in(item);
        at = entry.end;
        k += 1;
    }
    again.and(unfit)
}

// Whether node i is a variable whose value contradicts a fixed bit.
// (By the two tests of the definition: by `words::agrees`, which speaks of bits, laws would have to be cited, and it is no plainer.)
#[tactic(auto, unfolding(crate::specs::inner::Judging::is_contradicted, problem::specs::Refusals::bit_outside))]
fn is_contradicted(problem: Problem, values: &[u64], i: u16) -> bool
    requires { (node_count problem.bytes.now ≤ length values.now) × (i < node_count problem.bytes.now) }
    ensures { result ≡ is_contradicted problem.entry.bytes.now values.now i }
{
    let n = problem.node(i);
    let v = values[usize::from(i)];
    (n.kind == kind::VARIABLE) & (((n.lo & v) != n.lo) | ((v & n.hi) != v))
}

// 36, node by node.
// (A loop, here and in `absent`: `first_refusal` is of the other refusal, with its own definition.)
#[tactic(auto, using(crate::specs::laws::First::said_none, crate::specs::laws::First::contradicted_fault, crate::specs::laws::First::contradicted_passed, crate::specs::laws::First::said_end))]
fn any_contradicted(problem: Problem, values: &[u64]) -> Result<(), Fault>
    requires { node_count problem.bytes.now ≤ length values.now }
    ensures { said result ≡ first_said (contradicted_at problem.entry.bytes.now values.now) (node_count problem.entry.bytes.now) }
{
    for i in 0..problem.node_count() {
        refuse_if(
            is_contradicted(problem, values, i),
            Reason::Contradicted,
            u64::from(i),
        )?;
    }
    Ok(())
}

// The value at a node's place, and 0 past the end, as `zero_at` has it.
// (One line of the library, named, as `old_at` in `mending`: one for both would be no plainer.)
fn held(values: &[u64], id: u16) -> u64
    ensures { result ≡ get_or values.now id 0 }
{
    values.get(usize::from(id)).copied().unwrap_or(0)
}

// The first root that is 0.
// (A loop over positions: no slice holds the roots, and a closure would have to ask that a position is one.)
#[tactic(auto, using(crate::specs::laws::First::zero_found, crate::specs::laws::First::zero_not, crate::specs::laws::First::said_none, crate::specs::laws::First::said_more, crate::specs::laws::First::said_at, crate::specs::laws::First::said_end))]
fn first_zero(problem: Problem, values: &[u64]) -> Option<u16>
    ensures { root_said result ≡ first_said (zero_at problem.entry.bytes.now values.now) (root_count problem.entry.bytes.now) }
{
    for j in 0..problem.root_count() {
        if held(values, problem.root(j)) == 0 {
            return Some(j);
        }
    }
    None
}

// 35, 36 and the roots, of values by variable.
fn judge_values(variables: &Variables, given: &Given) -> Result<Option<u16>, Fault>
    ensures { told result ≡ (first_said (unmarked_at variables.now.ids.now given.now.marks) variables.now.index.names.count next values_said variables.now.problem.bytes.now (placed_up variables.now.ids.now given.now.words variables.now.index.names.count)) }
{
    let problem = variables.problem;
    variables.absent(given)?;
    let mut values = [0u64; 1024];
    variables.assign(given, &mut values);
    any_contradicted(problem, &values)?;
    evaluate(problem, &mut values);
    Ok(first_zero(problem, &values))
}

// 31 to 36 and the roots.
fn judge_text(variables: &Variables, text: &[u8]) -> Result<Option<u16>, Fault>
    ensures { told result ≡ (refuse 31 0 (not (is_model text.now)) next judged_entries variables.now.problem.bytes.now (names variables.now.index.names.list.now) (entries text.now)) }
{
    let mut given = Given {
        marks: [false; 1024],
        words: [0; 1024],
    };
    let syntax = refuse_if(!is_model(text), Reason::Syntax, 0);
    let found = read_entries(variables, text, &mut given);
    syntax.and(found)?;
    judge_values(variables, &given)
}

// The problem's refusals, 30 to 36 and the roots.
pub(crate) fn judge_bytes(bytes: &[u8], list: &[u8], text: &[u8]) -> Result<Option<u16>, Fault>
    ensures { told result ≡ judged bytes.now list.now text.now }
{
    let problem = Problem::parse(bytes)?;
    let mut ids = [0u16; 1024];
    let count = read_variables(problem, &mut ids);
    let mut froms = [0usize; 1024];
    let mut tos = [0usize; 1024];
    let named = read_names(list, &mut froms, &mut tos);
    refuse_if(named != Some(count), Reason::Names, 0)?;
    let names = NameList {
        list,
        froms: &froms,
        tos: &tos,
        count,
    };
    let mut digests = [0u64; 1024];
    names.read_digests(&mut digests);
    let index = NameIndex {
        names,
        digests: &digests,
    };
    refuse_if(index.any_again(), Reason::Names, 0)?;
    let variables = Variables {
        problem,
        ids: &ids,
        index,
    };
    judge_text(&variables, text)
}
