// What a search for a value answers: the value found, or none.
ghost use Rattle.std.specs.Prelude.{◌≡◌};
ghost use Rattle.words.specs.inner.Words.{lesser};

// The lesser of two answers, under the name by which docs/CONTRACTS.md promises it.
pub fn lesser_of(a: Option<u64>, b: Option<u64>) -> Option<u64>
    ensures { result ≡ lesser a b }
{
    let Some(u) = a else {
        return b;
    };
    let Some(v) = b else {
        return a;
    };
    Some(u.min(v))
}
