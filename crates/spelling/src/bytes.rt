// Numbers and nodes put into bytes.
ghost use Rattle.std.specs.Prelude.{◌≡◌, ◌+◌, ◌≤◌, length};
ghost use Rattle.std.proofs.lemmas.List.Edits.{sets};
ghost use Rattle.spelling.specs.Bytes.{node_bytes};

use problem::Node;

// Bytes, from a place on.
// (As `put_bytes` in `mending`: neither crate knows the other, and it is one line; `laid` is `sets` by another name.)
pub(crate) fn put(out: &mut [u8], at: usize, bytes: &[u8])
    requires { at + length bytes.now ≤ length out.old }
    ensures { out.new ≡ sets out.old at bytes.now }
{
    out[at..at + bytes.len()].copy_from_slice(bytes);
}

/// A node's bytes, from a place on: kind and width, the fields, lo and hi.
pub fn put_node(out: &mut [u8], at: usize, node: Node)
    requires { at + 24 ≤ length out.old }
    ensures { out.new ≡ sets out.old at (node_bytes node) }
{
    put(out, at, &[node.kind, node.width]);
    put(out, at + 2, &node.a.to_le_bytes());
    put(out, at + 4, &node.b.to_le_bytes());
    put(out, at + 6, &node.c.to_le_bytes());
    put(out, at + 8, &node.lo.to_le_bytes());
    put(out, at + 16, &node.hi.to_le_bytes());
}
