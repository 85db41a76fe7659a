// Products and inverses modulo 2^64.
ghost use Rattle.std.specs.Prelude.{◌≡◌, ℕ, ◌+◌, ◌*◌, ◌%◌, ◌^◌, ◌<◌, ◌≤◌};
ghost use Rattle.words.specs.inner.Words.{Inverse, WordInverse};

// a * b, modulo 2^64, under the name by which the operators multiply.
pub fn wrapping_mul(a: u64, b: u64) -> u64
    ensures { result ≡ a * b % 2 ^ 64 }
{
    a.wrapping_mul(b)
}

// Newton's step: from an inverse of a to k bits, one to 2k bits.
fn newton(a: u64, x: u64) -> u64
    ensures { (k : ℕ) → 0 < k → k + k ≤ 64 → Inverse k a x → Inverse (k + k) a result }
{
    let y = wrapping_mul(a, x);
    wrapping_mul(x, 2u64.wrapping_sub(y))
}

// The word that an odd a is to be multiplied by to give 1, modulo 2^64: 1 is an inverse of a to one
// bit, and each of six steps doubles the bits.
pub fn odd_inverse(a: u64) -> u64
    requires { a % 2 ≡ 1 }
    ensures { WordInverse 64 a result }
{
    let x2 = newton(a, 1);
    let x4 = newton(a, x2);
    let x8 = newton(a, x4);
    let x16 = newton(a, x8);
    let x32 = newton(a, x16);
    newton(a, x32)
}
