// What the operators give on their operands' values, in word operations: those that take more than one. `nodes` chooses by kind.
ghost use Rattle.std.specs.Prelude.{◌≡◌, ◌+◌, ◌-◌, ◌*◌, ◌/◌, ◌%◌, ◌^◌, ◌<◌, ◌≤◌};
ghost use Rattle.operators.specs.Meaning.{quotient as quotient_of};

// An operator in its place: its kind, its node's width, the widths of operands a and b, and its lowest bit (extract).
#[derive(Clone, Copy, Debug, PartialEq, Eq)]
pub struct Op {
    pub kind: u8,
    pub width: u32,
    pub wa: u32,
    pub wb: u32,
    pub low: u32,
}

// w ones.
pub fn ones(w: u32) -> u64
    requires { w ≤ 64 }
    ensures { result ≡ 2 ^ w - 1 }
{
    words::cut(u64::MAX, w)
}

// not a, of w bits.
// (A width is a number with its bounds in a clause, here and in the crates above: it is a node's field, and a type would be made of it at each call.)
pub fn flip(a: u64, w: u32) -> u64
    requires { (1 ≤ w) × (w ≤ 64) × (a < 2 ^ w) }
    ensures { result ≡ (2 ^ w - 1) - a }
{
    words::to_width(!a, w)
}

// a + b modulo 2^w.
pub fn sum(a: u64, b: u64, w: u32) -> u64
    requires { (1 ≤ w) × (w ≤ 64) }
    ensures { result ≡ (a + b) % 2 ^ w }
{
    words::to_width(a.wrapping_add(b), w)
}

// a · b modulo 2^w.
pub fn product(a: u64, b: u64, w: u32) -> u64
    requires { (1 ≤ w) × (w ≤ 64) }
    ensures { result ≡ (a * b) % 2 ^ w }
{
    words::to_width(words::wrapping_mul(a, b), w)
}

// a shifted left by any amount, modulo 2^w.
pub fn left(a: u64, b: u64, w: u32) -> u64
    requires { (1 ≤ w) × (w ≤ 64) }
    ensures { result ≡ (a * 2 ^ b) % 2 ^ w }
{
    if b < 64 {
        words::to_width(a << b, w)
    } else {
        0
    }
}

// a shifted right by any amount.
pub fn right(a: u64, b: u64) -> u64
    ensures { result ≡ a / 2 ^ b }
{
    if b < 64 { a >> b } else { 0 }
}

// a divided by b, of w bits: all ones for b = 0.
pub fn quotient(a: u64, b: u64, w: u32) -> u64
    requires { w ≤ 64 }
    ensures { result ≡ quotient_of w a b }
{
    if b == 0 {
        return ones(w);
    }
    a / b
}

// a above the k bits of b.
pub fn join(a: u64, b: u64, k: u32) -> u64
    requires { (k < 64) × (b < 2 ^ k) × (a < 2 ^ (64 - k)) }
    ensures { result ≡ a * 2 ^ k + b }
{
    (a << k) | b
}

// The w bits of a from bit k on.
pub fn part(a: u64, k: u32, w: u32) -> u64
    requires { (1 ≤ w) × (w ≤ 64) × (k < 64) }
    ensures { result ≡ a / 2 ^ k % 2 ^ w }
{
    words::to_width(a >> k, w)
}
