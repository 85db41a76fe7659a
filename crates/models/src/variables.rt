// The variables of a problem beside their names, and what a text's entries give to them.
ghost use Rattle.models.specs.inner.Judging.{Prepared};

use crate::Fault;
use crate::reason::{Reason, refuse_if};
use entries::NameIndex;
use problem::Problem;

// An accepted problem, the ids of its variables in order, and a name for each, none of them twice.
#[derive(Clone, Copy, Debug)]
pub(crate) struct Variables<'a> {
    pub(crate) problem: Problem<'a>,
    pub(crate) ids: &'a [u16],
    pub(crate) index: NameIndex<'a>,
    ghost prepared: { Prepared problem.bytes.now index.names.list.now ids.now index.names.count },
}

// Of each variable, whether an entry is of it, and its value. An array of Option would take 7 KB more of the stack.
// (`Drop` alone: so many places are never copied, compared or printed.)
#[derive(Drop)]
pub(crate) struct Given {
    pub(crate) marks: [bool; 1024],
    pub(crate) words: [u64; 1024],
}

impl<'a> Variables<'a> {
    ghost use Rattle.std.specs.Prelude.{◌≡◌};
    ghost use Rattle.nodes.specs.Problem.{zeros};
    ghost use Rattle.models.specs.Judgement.{first_said};
    ghost use Rattle.models.specs.inner.Judging.{said, placed_up, unmarked_at};

    // 35, variable by variable.
    // (By number, here and below: it is the place in two arrays.)
    #[tactic(auto, using(crate::specs::laws::First::said_none, crate::specs::laws::First::unmarked_fault, crate::specs::laws::First::unmarked_passed, crate::specs::laws::First::said_end, crate::specs::laws::Variables::variable_few, crate::specs::laws::Variables::variable_held))]
    pub(crate) fn absent(&self, given: &Given) -> Result<(), Fault>
        ensures { said result ≡ first_said (unmarked_at self.now.ids.now given.now.marks) self.now.index.names.count }
    {
        for k in 0..self.index.names.count {
            refuse_if(!given.marks[k], Reason::Absent, u64::from(self.ids[k]))?;
        }
        Ok(())
    }

    // The values, each at its variable's id.
    #[tactic(auto, using(crate::specs::laws::Values::placed_none, crate::specs::laws::Values::placed_more, crate::specs::laws::Values::placed_all, crate::specs::laws::Variables::variable_few, crate::specs::laws::Variables::variable_held))]
    pub(crate) fn assign(&self, given: &Given, values: &mut [u64])
        requires { values.old ≡ zeros }
        ensures { values.new ≡ placed_up self.now.ids.now given.now.words self.now.index.names.count }
    {
        for k in 0..self.index.names.count {
            values[usize::from(self.ids[k])] = given.words[k];
        }
    }
}
