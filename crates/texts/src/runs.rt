// Classes of bytes, the runs of a class, and pieces of text that are the same.
ghost use Rattle.std.specs.Prelude.{◌≡◌, ◌+◌, ◌≤◌, length, drop, get_or};
ghost use Rattle.texts.specs.Runs.{is_blank, is_white, is_symbol_byte, is_in, length_of_run, equal};

/// The classes that readers run over.
#[derive(Clone, Copy, Debug, PartialEq, Eq)]
pub enum Class {
    /// All but a line feed.
    Line,
    /// BTOR2's space, tab, carriage return.
    Blank,
    /// All but these.
    Solid,
    /// A small letter.
    Lower,
    /// An SMT-LIB comment, up to a line end.
    Comment,
    /// A quoted symbol, up to its second bar.
    Bars,
    /// A quoted symbol, as far as it has no backslash.
    Clean,
    /// A bare token.
    Bare,
    /// A simple symbol.
    Symbol,
}

#[tactic(auto, unfolding(crate::specs::Runs::is_blank))]
fn is_blank(b: u8) -> bool
    ensures { result ≡ is_blank b }
{
    matches!(b, b' ' | b'\t' | b'\r')
}

/// Space, tab, line feed, carriage return. Tests joined by `|` become one look-up in a mask, here and in `Class::Bare`: by
/// `matches!` they are tried one after another, and reading a get-model answer takes 15 % longer.
#[tactic(auto, unfolding(crate::specs::Runs::is_white))]
pub fn is_white(b: u8) -> bool
    ensures { result ≡ is_white b }
{
    (b == b' ') | (b == b'\t') | (b == b'\n') | (b == b'\r')
}

#[tactic(auto, unfolding(crate::specs::Runs::is_in, crate::specs::Runs::is_lower, crate::specs::Runs::is_symbol_byte, crate::specs::Runs::is_one_of, crate::specs::Runs::ascii))]
pub fn is_in(class: Class, b: u8) -> bool
    ensures { result ≡ is_in class b }
{
    match class {
        Class::Line => b != b'\n',
        Class::Blank => is_blank(b),
        Class::Solid => !is_blank(b),
        Class::Lower => b.is_ascii_lowercase(),
        Class::Comment => !matches!(b, b'\n' | b'\r'),
        Class::Bars => b != b'|',
        Class::Clean => b != b'\\',
        Class::Bare => {
            !(is_white(b) | (b == b'(') | (b == b')') | (b == b';') | (b == b'|') | (b == b'"'))
        }
        Class::Symbol => b.is_ascii_alphanumeric() || b"~!@$%^&*_-+=<>.?/".contains(&b),
    }
}

/// The byte at a place, and 0 past the end, as the definitions read there.
// (Also in `problem`: neither crate knows the other, and it is one line.)
pub fn byte_at(s: &[u8], p: usize) -> u8
    ensures { result ≡ get_or s.now p 0 }
{
    s.get(p).copied().unwrap_or(0)
}

/// The place after the longest run of bytes of the class that begins at a place.
// (By number: `position` would count from `at`, and have a case where all are of the class.)
#[tactic(auto, using(crate::specs::laws::Runs::run_goes, crate::specs::laws::Runs::run_stops, crate::specs::laws::Runs::run_none))]
pub fn run_end(s: &[u8], at: usize, class: Class) -> usize
    requires { at ≤ length s.now }
    ensures { result ≡ at + length_of_run (is_in class) (drop at s.now) }
{
    for i in at..s.len() {
        if !is_in(class, s[i]) {
            return i;
        }
    }
    s.len()
}

/// Whether two pieces of text are the same, byte for byte.
#[tactic(auto, unfolding(crate::specs::Runs::equal))]
pub fn same(s: &[u8], t: &[u8]) -> bool
    ensures { result ≡ equal s.now t.now }
{
    s == t
}
