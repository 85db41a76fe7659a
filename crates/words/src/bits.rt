// Bits of a word: the low ones, those not in another word, the highest, the lowest.
ghost use Rattle.std.specs.Prelude.{◌≡◌, ◌%◌, ◌^◌, ◌<◌, ◌≤◌};
ghost use Rattle.words.specs.inner.Words.{less};
ghost use Rattle.words.specs.inner.Words.{over};
ghost use Rattle.words.specs.inner.Words.{Top, Tail};

// The n low bits of x, where that is not all of them.
pub(crate) fn low_bits(x: u64, n: u32) -> u64
    requires { n < 64 }
    ensures { result ≡ x % 2 ^ n }
{
    x & ((1u64 << n) - 1)
}

// The n low bits of x, also where that is all of them.
// (A count of bits is a number with its bounds in a clause, here and in the crates above: a type would be made anew at each call.)
pub fn cut(x: u64, n: u32) -> u64
    requires { n ≤ 64 }
    ensures { result ≡ x % 2 ^ n }
{
    if n == 64 {
        return x;
    }
    low_bits(x, n)
}

// x cut to a width of 1 to 64 bits: as there is at least one, two shifts do it without a test.
pub fn to_width(x: u64, w: u32) -> u64
    requires { (1 ≤ w) × (w ≤ 64) }
    ensures { result ≡ x % 2 ^ w }
{
    let k = 64 - w;
    (x << k) >> k
}

// The bits of a that are not in b.
pub fn and_not(a: u64, b: u64) -> u64
    ensures { result ≡ less a b }
{
    a & !b
}

// The place of the highest set bit.
pub fn top_bit(x: u64) -> u32
    requires { 0 < x }
    ensures { Top 64 x result }
{
    63 - x.leading_zeros()
}

// The place of the lowest set bit.
pub fn low_bit(x: u64) -> u32
    requires { 0 < x }
    ensures { Tail 64 x result }
{
    x.trailing_zeros()
}

// x with its n low bits replaced by c.
pub fn set_low(x: u64, n: u32, c: u64) -> u64
    requires { (n ≤ 64) × (c < 2 ^ n) }
    ensures { result ≡ over n x c }
{
    x - cut(x, n) + c
}
