// The roots so far.
ghost use Rattle.std.specs.Prelude.{◌≡◌, ◌≤◌, length, take};
ghost use Rattle.spelling.specs.Nodes.{is_root};

// Whether a node is among so many roots.
// (A list and a count, here and in `write_all`: the roots so far are the first of fixed places.)
pub fn is_root(rooted: &[u16], roots: u16, node: u16) -> bool
    requires { roots ≤ length rooted.now }
    ensures { result ≡ is_root node (take roots rooted.now) }
{
    rooted[..usize::from(roots)].contains(&node)
}
