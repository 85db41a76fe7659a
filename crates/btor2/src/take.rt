// A line taken: refused with a number, or its nodes, its name or its root added to what is kept.
ghost use Rattle.std.specs.Prelude.{◌≡◌, Bool, true, false, cond, ◌||◌, List, [], ◌∷◌, ◌++◌, ℕ, ◌+◌, ◌*◌, ◌≤◌, ◌<◌, length, take, set};
ghost use Rattle.std.proofs.lemmas.List.Edits.{sets};
ghost use Rattle.lines.specs.Lines.{lines, tokens};
ghost use Rattle.lines.specs.Words.{shape, word_of};
ghost use Rattle.btor2.specs.Conversion.{State};
ghost use Rattle.spelling.specs.Nodes.{is_root};
ghost use Rattle.spelling.specs.Bytes.{all_nodes};
ghost use Rattle.btor2.specs.inner.Kept.{SortsKept};
ghost use Rattle.spelling.specs.inner.Spelled.{count_read, new_read};
ghost use Rattle.btor2.specs.inner.Taking.{unknown_read, sort_missing, operand_missing, roots_after, adds_name, overfull, NamedIf, RootIf, Kept, Stepped, Placed, Settled, counted, nothing};

use crate::names::{Before, Earlier, KeptNames, Sorts};
use crate::read::read_line;
use lines::{Fault, Makes, MarkedLine, format_fault, makes_of};
use spelling::{Line, Operands, is_root, line_fits, new_count, new_node, node_for, put_node};

// What is kept beside the arrays: the last id, and how many nodes, roots and kept ids there are.
#[derive(Clone, Copy, Debug, PartialEq, Eq)]
pub struct Counts {
    pub last: u64,
    pub nodes: u16,
    pub roots: u16,
    pub names: u16,
}

// ---- refusals 3 and 5

fn sort_missing(makes: Makes, width: u8) -> bool
    ensures { result ≡ sort_missing makes width }
{
    match makes {
        Makes::Input | Makes::Value => width == 0,
        Makes::Sort | Makes::Root => false,
    }
}

// An operand whose reference names nothing has node 1024: `Operand` has a number there, as the nodes of a line by its definition (`placed`).
fn operand_missing(ops: Operands) -> bool
    ensures { result ≡ operand_missing ops }
{
    1024 <= ops.a.node || 1024 <= ops.b.node || 1024 <= ops.c.node
}

// An id that does not increase, or a sort or a reference that is not defined.
#[tactic(auto, unfolding(crate::specs::inner::Taking::unknown_read))]
fn is_unknown(x: Line, last: u64) -> bool
    ensures { result ≡ unknown_read x last }
{
    let sort = sort_missing(makes_of(x.word), x.width);
    let operand = operand_missing(x.ops);
    (x.id <= last) | sort | operand
}

// More nodes or roots than there may be, or more bytes than are lent.
#[tactic(auto, unfolding(crate::specs::inner::Taking::overfull))]
fn is_overfull(room: usize, nodes: u16, roots: u16) -> bool
    ensures { result ≡ overfull room nodes roots }
{
    (1024 < nodes) | (256 < roots) | (room < 9 + 24 * usize::from(nodes) + 2 * usize::from(roots))
}

// ---- what a line adds

// How many roots there then are: a constraint's node is one, once.
fn roots_after(makes: Makes, rooted: &[u16], roots: u16, node: u16) -> u16
    requires { (roots ≤ length rooted.now) × (roots ≤ 256) }
    ensures { result ≡ roots_after makes (take roots rooted.now) roots node }
{
    match makes {
        Makes::Root if !is_root(rooted, roots, node) => roots + 1,
        _ => roots,
    }
}

fn add_nodes(bytes: &mut [u8], x: Line, n: u16, total: u16)
    requires { (n ≤ 1024) × (24 * (n + total) ≤ length bytes.old) × (total ≡ count_read x) }
    ensures { x.width ≤ 64 → bytes.new ≡ sets bytes.old (24 * n) (all_nodes (new_read x n)) }
{
    for j in 0..total {
        put_node(bytes, 24 * usize::from(n + j), new_node(x, n, j));
    }
}

// The id and the node of a line, where it is to be kept; answers how many ids are then kept. (The arrays are lent apart from the draft, here and
// below, so that nothing need be said of its other fields: that is plainer than six clauses that they stay.)
fn add_name(
    wanted: bool,
    ids: &mut [u64],
    places: &mut [u16],
    names: u16,
    id: u64,
    node: u16,
) -> u16
    requires { wanted ≡ true → (names < length ids.old) × (names < length places.old) × (names < 2048) }
    ensures { NamedIf wanted ids.old places.old names id node ids.new places.new result }
{
    if !wanted {
        return names;
    }
    let at = usize::from(names);
    ids[at] = id;
    places[at] = node;
    names + 1
}

// A line that makes nodes always; another name of a node while fewer than 1,024 ids are kept: 2,048 places hold them all.
fn adds_name(makes: Makes, total: u16, names: u16) -> bool
    ensures { result ≡ adds_name makes total names }
{
    match makes {
        Makes::Input | Makes::Value => 0 < total || names < 1024,
        Makes::Sort | Makes::Root => false,
    }
}

fn add_root(rooted: &mut [u16], before: u16, after: u16, node: u16)
    requires { before < after → before < length rooted.old }
    ensures { RootIf before after node rooted.old rooted.new }
{
    if before < after {
        rooted[usize::from(before)] = node;
    }
}

/// The problem so far: the bytes of its nodes, the ids that are kept with their nodes beside them, the roots, and how many of each there are.
// (`Drop` alone: so many places are never copied, compared or printed.)
#[derive(Drop)]
pub struct Draft {
    pub bytes: [u8; 24576],
    pub ids: [u64; 2048],
    pub places: [u16; 2048],
    pub rooted: [u16; 256],
    pub counts: Counts,
    ghost nodes_few: { counts.nodes ≤ 1024 },
    ghost roots_few: { counts.roots ≤ 256 },
    ghost names_few: { counts.names ≤ counts.nodes + 1024 },
}

impl Draft {
    /// Nothing yet.
    pub(crate) fn new() -> Draft
        ensures { result.counts ≡ nothing }
    {
        Draft {
            bytes: [0; 24576],
            ids: [0; 2048],
            places: [0; 2048],
            rooted: [0; 256],
            counts: Counts {
                last: 0,
                nodes: 0,
                roots: 0,
                names: 0,
            },
        }
    }

    // What a line that passes 1 to 4 adds, or refusal 5.
    fn place_line(&mut self, x: Line, room: usize) -> Result<(), Fault>
        ensures { Placed x self.old.counts room self.old.bytes self.old.ids self.old.places self.old.rooted self.new.bytes self.new.ids self.new.places self.new.rooted (counted result self.new.counts) }
    {
        let before = self.counts;
        let makes = makes_of(x.word);
        let total = new_count(x);
        let node = node_for(x, before.nodes, total);
        let nodes = before.nodes + total;
        let roots = roots_after(makes, &self.rooted, before.roots, node);
        if is_overfull(room, nodes, roots) {
            return Err(Fault::Room);
        }
        add_nodes(&mut self.bytes, x, before.nodes, total);
        let wanted = adds_name(makes, total, before.names);
        let names = add_name(
            wanted,
            &mut self.ids,
            &mut self.places,
            before.names,
            x.id,
            node,
        );
        add_root(&mut self.rooted, before.roots, roots, node);
        self.counts = Counts {
            last: x.id,
            nodes,
            roots,
            names,
        };
        Ok(())
    }

    // A line that is read: refusals 3 and 4, then what it adds.
    fn settle_line(&mut self, x: Line, room: usize) -> Result<(), Fault>
        ensures { Settled x self.old.counts room self.old.bytes self.old.ids self.old.places self.old.rooted self.new.bytes self.new.ids self.new.places self.new.rooted (counted result self.new.counts) }
    {
        if is_unknown(x, self.counts.last) {
            return Err(Fault::Id);
        }
        if !line_fits(x) {
            return Err(Fault::Width);
        }
        self.place_line(x, room)
    }

    /// A line whose tokens are marked, after the lines before it and with their sorts.
    pub(crate) fn take_line<'a>(
        &mut self,
        earlier: Earlier<'a>,
        sorts: &'a Sorts,
        line: MarkedLine,
        room: usize,
    ) -> Result<(), Fault>
        ensures { (σ : State) → Kept room σ (take earlier.entry.passed (lines earlier.entry.text.now)) self.old.counts self.old.bytes self.old.ids self.old.places self.old.rooted → SortsKept σ sorts.now.count sorts.now.ids sorts.now.widths → Stepped room σ (take earlier.entry.passed (lines earlier.entry.text.now)) line.entry.text.now self.new.bytes self.new.ids self.new.places self.new.rooted (counted result self.new.counts) }
    {
        if line.token_at(0).is_empty() {
            return Ok(());
        }
        format_fault(line)?;
        let names = KeptNames {
            ids: &self.ids,
            places: &self.places,
            count: self.counts.names,
        };
        let before = Before {
            earlier,
            sorts,
            names,
            bytes: &self.bytes,
        };
        let x = read_line(&before, line);
        self.settle_line(x, room)
    }
}
