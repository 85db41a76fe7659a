// What an id stands for. Lines that make nodes are at most 1,024, so their ids are kept, with their nodes beside them; a line that only gives
// another name (an extension by 0 of a positive reference) is read off the text.
ghost use Rattle.std.specs.Prelude.{◌≡◌, ◌≤◌, length, take, Option};
ghost use Rattle.lines.specs.Lines.{lines, tokens};
ghost use Rattle.lines.specs.Format.{ref_of};
ghost use Rattle.btor2.specs.Conversion.{State, at};
ghost use Rattle.btor2.specs.inner.Kept.{Rising, Beside, Named, Sorted, Seen, node_named, looked_up, WidthKept, SortsKept, SortNoted};

use lines::{alias_of, is_signed, line_of, small_of, token_walk, unsigned_of, width_told};
use spelling::Operand;
use texts::byte_at;

/// The first lines of a text, so many.
#[derive(Clone, Copy, Debug)]
pub struct Earlier<'a> {
    pub text: &'a [u8],
    pub passed: usize,
}

/// Ids, and the node of each beside it.
// (Two lists, as ids are searched alone, and their count, as `Named` and `Rising` speak of it.)
#[derive(Clone, Copy, Debug)]
pub struct KeptNames<'a> {
    pub ids: &'a [u64],
    pub places: &'a [u16],
    pub count: u16,
    ghost room: { count ≤ length ids.now },
    ghost beside: { count ≤ length places.now },
}

/// The ids of sorts, and the width of each beside it: the first 64.
// (`Drop` alone: so many places are never copied, compared or printed. Two arrays: pairs would take nearly twice the room.)
#[derive(Drop)]
pub struct Sorts {
    pub ids: [u64; 64],
    pub widths: [u8; 64],
    pub count: u8,
    ghost few: { count ≤ 64 },
}

/// What a line is read against: the lines before it, the names and the bytes of the nodes so far, and the sorts.
// (No `Debug`: `Sorts` has none.)
#[derive(Clone, Copy)]
pub struct Before<'t, 'k> {
    pub earlier: Earlier<'t>,
    pub sorts: &'t Sorts,
    pub names: KeptNames<'k>,
    pub bytes: &'k [u8],
}

// The node beside an id, where the ids increase.
#[tactic(auto, using(crate::specs::laws::Name::beside_found, crate::specs::laws::Name::beside_none))]
fn beside(names: KeptNames, id: u64) -> Option<u16>
    ensures { Rising names.entry.ids.now names.entry.count → Beside names.entry.ids.now names.entry.places.now names.entry.count id result }
{
    let ids = &names.ids[..usize::from(names.count)];
    match ids.binary_search(&id) {
        Ok(k) => Some(names.places[k]),
        Err(_) => None,
    }
}

// The node that an id names: other names are followed, which leads to ever lower ids. (How many there are is not known before.)
fn node_of(earlier: Earlier, names: KeptNames, id: u64) -> Option<u16>
    ensures { (σ : State) → Named σ (take earlier.entry.passed (lines earlier.entry.text.now)) names.entry.count names.entry.ids.now names.entry.places.now → Rising names.entry.ids.now names.entry.count → result ≡ node_named σ id }
{
    let mut next = id;
    while 0 < next {
        if let Some(node) = beside(names, next) {
            return Some(node);
        }
        let other = alias_of(line_of(earlier.text, earlier.passed, next));
        if next <= other {
            return None;
        }
        next = other;
    }
    None
}

// The operand that a reference names; one with node 1024 where it names none, as the definitions of a line's nodes have a number there.
// (`Seen` is said of every state σ, here and in `read`: so it stands in the clauses, and no type can hold it.)
pub(crate) fn operand_of(before: &Before, t: &[u8]) -> Operand
    ensures { (σ : State) → Seen σ (take before.now.earlier.passed (lines before.now.earlier.text.now)) before.now.names.count before.now.bytes.now before.now.names.ids.now before.now.names.places.now → Rising before.now.names.ids.now before.now.names.count → result ≡ looked_up σ (ref_of t.now) }
{
    let negative = is_signed(t);
    match node_of(before.earlier, before.names, small_of(unsigned_of(t))) {
        Some(node) => Operand {
            negative,
            node,
            width: byte_at(before.bytes, 24 * usize::from(node) + 1),
        },
        None => Operand {
            negative,
            node: 1024,
            width: 0,
        },
    }
}

impl Sorts {
    /// None yet.
    pub(crate) fn new() -> Sorts
        ensures { result.count ≡ 0 }
    {
        Sorts {
            ids: [0; 64],
            widths: [0; 64],
            count: 0,
        }
    }

    // The width kept for a sort's id; 0, as for a width that no sort has, where the id is not there.
    // (0 and no `Option`, as `WidthKept` and `width_of` have it; by number, as it is the place in both arrays.)
    fn width_kept(&self, id: u64) -> u8
        ensures { WidthKept self.now.ids self.now.widths self.now.count id result }
    {
        for k in 0..usize::from(self.count) {
            if self.ids[k] == id {
                return self.widths[k];
            }
        }
        0
    }

    /// The width of the sort that an id names, and 0 where it names none: the first sorts are kept, any other is read off the text.
    // (0, as `at` has it for what a table does not have.)
    pub(crate) fn width_of(&self, earlier: Earlier, id: u64) -> u8
        ensures { (σ : State) → Sorted σ (take earlier.entry.passed (lines earlier.entry.text.now)) → SortsKept σ self.now.count self.now.ids self.now.widths → result ≡ at id σ.sorts }
    {
        if id == 0 {
            return 0;
        }
        let kept = self.width_kept(id);
        if 0 < kept {
            return kept;
        }
        width_told(line_of(earlier.text, earlier.passed, id))
    }

    /// A sort's line that has passed is kept, while there is room.
    pub(crate) fn note(&mut self, line: &[u8])
        ensures { SortNoted (tokens line.now) self.old.count self.old.ids self.old.widths self.new.ids self.new.widths self.new.count }
    {
        let width = width_told(line);
        if width == 0 || 64 <= self.count {
            return;
        }
        let at = usize::from(self.count);
        self.ids[at] = small_of(token_walk(line, 0));
        self.widths[at] = width;
        self.count += 1;
    }
}
