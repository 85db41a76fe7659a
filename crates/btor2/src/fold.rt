// The conversion: a fold over the lines.
ghost use Rattle.std.specs.Prelude.{◌≡◌};
ghost use Rattle.btor2.specs.inner.Taking.{counted, nothing};
ghost use Rattle.btor2.specs.inner.Folding.{Ends};

use crate::Refusal;
use crate::names::{Earlier, Sorts};
use crate::take::Draft;
use lines::{MarkedLine, mark_tokens};
use texts::{Class, run_end};

// All lines, from nothing. (A `loop`: the last line has no line feed behind it, so that the end is found in the middle of a turn.)
pub(crate) fn fold_lines(text: &[u8], room: usize, draft: &mut Draft) -> Result<(), Refusal>
    requires { draft.old.counts ≡ nothing }
    ensures { Ends room text.now draft.new.bytes draft.new.rooted (counted result draft.new.counts) }
{
    let mut sorts = Sorts::new();
    let mut marks = [0usize; 24];
    let mut at: usize = 0;
    let mut passed: usize = 0;
    loop {
        let end = run_end(text, at, Class::Line);
        let line = &text[at..end];
        mark_tokens(line, &mut marks);
        let marked = MarkedLine {
            text: line,
            marks: &marks,
        };
        let taken = draft.take_line(Earlier { text, passed }, &sorts, marked, room);
        if let Err(fault) = taken {
            return Err(Refusal {
                fault,
                line: passed + 1,
            });
        }
        if end == text.len() {
            return Ok(());
        }
        sorts.note(line);
        at = end + 1;
        passed += 1;
    }
}
