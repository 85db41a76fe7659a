// Names: what a token in a name's place may be, and where the names of the lent list stand.
ghost use Rattle.std.specs.Prelude.{◌≡◌, ◌<◌, length};
ghost use Rattle.entries.specs.Names.{is_barred, inside as inside_of, is_simple, is_quoted, is_name};
ghost use Rattle.entries.specs.inner.Places.{OnLine, Lists};

use texts::{Class, byte_at, run_end};

// Where the name of a line stands, without its bars, and where the next line begins.
#[derive(Clone, Copy, Debug, PartialEq, Eq)]
pub struct NameLine {
    pub from: usize,
    pub to: usize,
    pub next: usize,
}

// Whether a piece of text is of two bytes or more, with a bar at both ends.
#[tactic(auto, unfolding(crate::specs::Names::is_barred))]
fn is_barred(t: &[u8]) -> bool
    ensures { result ≡ is_barred t.now }
{
    matches!(t, [b'|', .., b'|'])
}

// The name without its bars.
#[tactic(auto, unfolding(crate::specs::Names::is_barred, crate::specs::Names::inside))]
pub(crate) fn inside(t: &[u8]) -> &[u8]
    ensures { result.now ≡ inside_of t.now }
{
    match t {
        [b'|', inside @ .., b'|'] => inside,
        _ => t,
    }
}

#[tactic(auto, unfolding(crate::specs::Names::is_simple))]
fn is_simple(t: &[u8]) -> bool
    ensures { result ≡ is_simple t.now }
{
    !t.is_empty() && run_end(t, 0, Class::Symbol) == t.len() && !byte_at(t, 0).is_ascii_digit()
}

#[tactic(auto, unfolding(crate::specs::Names::is_quoted))]
fn is_quoted(t: &[u8]) -> bool
    ensures { result ≡ is_quoted t.now }
{
    is_barred(t) && run_end(t, 0, Class::Clean) == t.len()
}

// Whether a token is a simple or a quoted symbol.
#[tactic(auto, unfolding(crate::specs::Names::is_name))]
pub(crate) fn is_name(t: &[u8]) -> bool
    ensures { result ≡ is_name t.now }
{
    is_simple(t) || is_quoted(t)
}

// The line that begins at a place.
fn line_at(list: &[u8], at: usize) -> NameLine
    requires { at < length list.now }
    ensures { OnLine list.now at result }
{
    let end = run_end(list, at, Class::Line);
    let next = list.len().min(end + 1);
    if is_barred(&list[at..end]) {
        return NameLine {
            from: at + 1,
            to: end - 1,
            next,
        };
    }
    NameLine {
        from: at,
        to: end,
        next,
    }
}

// How many names a list may have.
const MOST: usize = 1024;

/// Where each name of the list stands, for 1,024 of them; and how many there are, where there are not more.
// (Two arrays lent by the caller, written here; `NameList` holds them after.)
#[tactic(auto, using(crate::specs::laws::Names::line_counted, crate::specs::laws::Names::line_next, crate::specs::laws::Names::line_placed, crate::specs::laws::Names::line_starts, crate::specs::laws::Names::written_more, crate::specs::laws::Names::written_none, crate::specs::laws::Names::placed_none, crate::specs::laws::Names::line_first_at, crate::specs::laws::Names::listed_all, crate::specs::laws::Names::listed_more))]
pub fn read_names(list: &[u8], froms: &mut [usize], tos: &mut [usize]) -> Option<usize>
    requires { (length froms.old ≡ 1024) × (length tos.old ≡ 1024) }
    ensures { Lists list.now froms.old tos.old froms.new tos.new result }
{
    let mut at = 0;
    for k in 0..MOST {
        if at == list.len() {
            return Some(k);
        }
        let line = line_at(list, at);
        froms[k] = line.from;
        tos[k] = line.to;
        at = line.next;
    }
    if at == list.len() { Some(MOST) } else { None }
}
