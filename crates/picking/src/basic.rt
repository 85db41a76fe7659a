// The sets that several operators answer, each named by what is in it. (A few are one box each: they differ in what they promise.)
ghost use Rattle.std.specs.Prelude.{◌≡◌, ◌%◌, ◌^◌, ◌<◌, ◌≤◌, true, ◌⊎◌, ◌≢◌};
ghost use Rattle.words.specs.Agree.{Agrees};
ghost use Rattle.boxes.specs.inner.Boxes.{Solves, Every};

use boxes::{Row, Set, Union, between, low_are, ternary};

// Every value.
pub(crate) fn all() -> Set
    ensures { Solves 64 Every result }
{
    Set::One(between(0, u64::MAX))
}

// Every value where x is t, else none.
pub(crate) fn all_if(x: u64, t: u64) -> Set
    ensures { Solves 64 (λ v. x ≡ t) result }
{
    if x != t {
        return Set::Empty;
    }
    all()
}

// The values from a to b.
pub(crate) fn range(a: u64, b: u64) -> Set
    ensures { Solves 64 (λ v. (a ≤ v) × (v ≤ b)) result }
{
    Set::One(between(a, b))
}

// The one value c.
pub(crate) fn only(c: u64) -> Set
    ensures { Solves 64 (λ v. v ≡ c) result }
{
    Set::Only(c, true)
}

// The one value c where x is t, else none.
pub(crate) fn only_if(c: u64, x: u64, t: u64) -> Set
    ensures { Solves 64 (λ v. (v ≡ c) × (x ≡ t)) result }
{
    Set::Only(c, x == t)
}

// The one value c where it is there, else none.
pub(crate) fn only_where(c: u64, there: bool) -> Set
    ensures { Solves 64 (λ v. (v ≡ c) × (there ≡ true)) result }
{
    Set::Only(c, there)
}

// The values below s.
pub(crate) fn below(s: u64) -> Set
    ensures { Solves 64 (λ v. v < s) result }
{
    if s == 0 {
        return Set::Empty;
    }
    range(0, s - 1)
}

// The values above s.
pub(crate) fn above(s: u64) -> Set
    ensures { Solves 64 (λ v. s < v) result }
{
    if s == u64::MAX {
        return Set::Empty;
    }
    range(s + 1, u64::MAX)
}

// The values other than s.
pub(crate) fn apart(s: u64) -> Set
    ensures { Solves 64 (λ v. v ≢ s) result }
{
    Set::Many(Union::Except(s))
}

// The values up to a, and those from b on.
pub(crate) fn ends(a: u64, b: u64) -> Set
    ensures { Solves 64 (λ v. (v ≤ a) ⊎ (b ≤ v)) result }
{
    Set::Many(Union::Several(Row::Ends(a, b), 2))
}

// The values that agree with lo, hi.
// (Two words and no `Ternary`: it asks nothing of them.)
pub(crate) fn agreeing(lo: u64, hi: u64) -> Set
    ensures { Solves 64 (Agrees lo hi) result }
{
    Set::One(ternary(lo, hi))
}

// The values whose n low bits are c.
pub(crate) fn ending(n: u32, c: u64) -> Set
    requires { (n ≤ 64) × (c < 2 ^ n) }
    ensures { Solves 64 (λ v. v % 2 ^ n ≡ c) result }
{
    Set::One(low_are(n, c))
}
