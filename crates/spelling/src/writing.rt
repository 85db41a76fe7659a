// A problem's bytes: header, nodes and roots.
ghost use Rattle.std.specs.Prelude.{◌≡◌, List, [], ◌∷◌, ◌++◌, ℕ, ◌+◌, ◌*◌, ◌≤◌, length, take};
ghost use Rattle.std.proofs.lemmas.List.Edits.{sets};
ghost use Rattle.spelling.specs.Bytes.{all_roots};
ghost use Rattle.spelling.specs.inner.Written.{header_bytes, Wrote};

use crate::bytes::put;

// The mark, the version and the counts.
fn put_header(out: &mut [u8], nodes: u16, roots: u16)
    requires { 9 ≤ length out.old }
    ensures { out.new ≡ sets out.old 0 (header_bytes nodes roots) }
{
    put(out, 0, b"TBV");
    put(out, 3, &1u16.to_le_bytes());
    put(out, 5, &nodes.to_le_bytes());
    put(out, 7, &roots.to_le_bytes());
}

// So many roots, from a place on.
// (By number: it is the place in the list and in the bytes.)
fn put_roots(out: &mut [u8], at: usize, rooted: &[u16], count: u16)
    requires { (at + 2 * count ≤ length out.old) × (count ≤ length rooted.now) }
    ensures { out.new ≡ sets out.old at (all_roots (take count rooted.now)) }
{
    for i in 0..usize::from(count) {
        put(out, at + 2 * i, &rooted[i].to_le_bytes());
    }
}

// Header, nodes and roots from the start of the lent bytes; answers how many bytes that is.
pub fn write_all(out: &mut [u8], bytes: &[u8], rooted: &[u16], nodes: u16, roots: u16) -> usize
    requires { (9 + 24 * nodes + 2 * roots ≤ length out.old) × (24 * nodes ≤ length bytes.now) × (roots ≤ length rooted.now) }
    ensures { Wrote out.old bytes.now rooted.now nodes roots out.new result }
{
    let size = 24 * usize::from(nodes);
    let middle = 9 + size;
    put_header(out, nodes, roots);
    put(out, 9, &bytes[..size]);
    put_roots(out, middle, rooted, roots);
    middle + 2 * usize::from(roots)
}
