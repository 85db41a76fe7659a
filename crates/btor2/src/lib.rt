// BTOR2 in: from the text of a combinational design to problem bytes.
#![tactic(auto)]

ghost use Rattle.std.specs.Prelude.{◌≤◌};
ghost use Rattle.btor2.specs.Answer.{Converts};

mod fold;
mod names;
mod read;
mod take;

use fold::fold_lines;
pub use lines::Fault;
use spelling::write_all;
pub use take::Counts;
use take::Draft;

/// Why a text is refused: what is wrong with its first line that fails, and that line, from 1, or 0 before any.
// (Line 0 and no Option: `Converts` and C's number for it have it so.)
#[derive(Clone, Copy, Debug, PartialEq, Eq)]
pub struct Refusal {
    pub fault: Fault,
    pub line: usize,
}

/// What became of a text: so many bytes written, or why it is refused.
pub type Converted = Result<usize, Refusal>;

/// Converts a text into the lent bytes: the problem at their start and nothing else changed, or a refusal and nothing changed.
pub fn convert(text: &[u8], out: &mut [u8]) -> Converted
    ensures { Converts text.now out.old out.new result }
{
    if out.len() < 9 {
        return Err(Refusal {
            fault: Fault::Room,
            line: 0,
        });
    }
    let mut draft = Draft::new();
    fold_lines(text, out.len(), &mut draft)?;
    let counts = draft.counts;
    Ok(write_all(out, &draft.bytes, &draft.rooted, counts.nodes, counts.roots))
}
