// The layout of a problem's bytes: numbers, header, nodes and roots. Each reader is tied to its name in specs/Layout.
ghost use Rattle.std.specs.Prelude.{◌≡◌, ◌+◌, ◌*◌, ◌≤◌, ◌<◌, ◌^◌, length, get_or};
ghost use Rattle.problem.specs.Layout.{le16, le32, le64, version, node_count, root_count, node_of, node_at, width_at, root_at};

// A node's record.
#[derive(Clone, Copy, Debug, PartialEq, Eq)]
pub struct Node {
    pub kind: u8,
    pub width: u8,
    pub a: u16,
    pub b: u16,
    pub c: u16,
    pub lo: u64,
    pub hi: u64,
}

// The byte at a place, and 0 past the end, as the definitions read there.
// (Also in `texts`: neither crate knows the other, and it is one line.)
pub(crate) fn byte_at(s: &[u8], p: usize) -> u8
    ensures { result ≡ get_or s.now p 0 }
{
    s.get(p).copied().unwrap_or(0)
}

// The little-endian numbers of 16, 32 and 64 bits that start at a place.
#[tactic(auto, unfolding(crate::specs::Layout::le16))]
pub fn u16_at(s: &[u8], p: usize) -> u16
    requires { p + 2 ≤ length s.now }
    ensures { result ≡ le16 s.now p }
{
    u16::from_le_bytes([s[p], s[p + 1]])
}

#[tactic(auto, unfolding(crate::specs::Layout::le16, crate::specs::Layout::le32))]
pub fn u32_at(s: &[u8], p: usize) -> u32
    requires { p + 4 ≤ length s.now }
    ensures { result ≡ le32 s.now p }
{
    u32::from_le_bytes([s[p], s[p + 1], s[p + 2], s[p + 3]])
}

// (Of two halves, as `le64` is: no plainer of eight bytes.)
#[tactic(auto, unfolding(crate::specs::Layout::le64))]
pub fn u64_at(s: &[u8], p: usize) -> u64
    requires { p + 8 ≤ length s.now }
    ensures { result ≡ le64 s.now p }
{
    u64::from(u32_at(s, p)) + 4294967296 * u64::from(u32_at(s, p + 4))
}

// The same of 16 bits where a byte past the end reads as 0, which asks nothing. One test where both bytes are there: a run reads
// each root before each move, and a test for each byte takes 20 instructions a root in place of 13.
#[tactic(auto, unfolding(crate::specs::Layout::le16))]
fn padded_u16_at(s: &[u8], p: usize) -> u16
    requires { p + 1 < 2 ^ 64 }
    ensures { result ≡ le16 s.now p }
{
    if p + 1 < s.len() {
        return u16_at(s, p);
    }
    u16::from(byte_at(s, p))
}

// The header's numbers.
pub(crate) fn version_of(problem: &[u8]) -> u16
    ensures { result ≡ version problem.now }
{
    padded_u16_at(problem, 3)
}

pub fn node_count(problem: &[u8]) -> u16
    ensures { result ≡ node_count problem.now }
{
    padded_u16_at(problem, 5)
}

pub fn root_count(problem: &[u8]) -> u16
    ensures { result ≡ root_count problem.now }
{
    padded_u16_at(problem, 7)
}

// The node of the 24 bytes that it occupies.
#[tactic(auto, unfolding(crate::specs::Layout::node_of))]
pub fn read_node(part: &[u8]) -> Node
    requires { 24 ≤ length part.now }
    ensures { result ≡ node_of part.now }
{
    Node {
        kind: part[0],
        width: part[1],
        a: u16_at(part, 2),
        b: u16_at(part, 4),
        c: u16_at(part, 6),
        lo: u64_at(part, 8),
        hi: u64_at(part, 16),
    }
}

// Node i: its part of the problem is handed on to the record reader.
// (Of plain bytes that are long enough: the check and the mender read what is not accepted.)
#[tactic(auto, using(crate::specs::laws::Layout::part_node))]
pub fn node_at(problem: &[u8], i: u16) -> Node
    requires { 9 + 24 * i + 24 ≤ length problem.now }
    ensures { result ≡ node_at problem.now i }
{
    let from = 9 + 24 * usize::from(i);
    read_node(&problem[from..from + 24])
}

// The width of node i, and 0 where no byte is, as its definition has it.
#[tactic(auto, using(crate::specs::laws::Layout::width_byte))]
pub fn width_at(problem: &[u8], i: u16) -> u8
    ensures { result ≡ width_at problem.now i }
{
    byte_at(problem, 10 + 24 * usize::from(i))
}

// Root j, a node's id.
#[tactic(auto, unfolding(crate::specs::Layout::root_at))]
pub fn root_at(problem: &[u8], j: u16) -> u16
    ensures { result ≡ root_at problem.now j }
{
    padded_u16_at(
        problem,
        9 + 24 * usize::from(node_count(problem)) + 2 * usize::from(j),
    )
}
