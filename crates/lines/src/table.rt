// The keywords of the list, by number, and the columns of their table.
ghost use Rattle.std.specs.Prelude.{◌≡◌, ◌≤◌, length};
ghost use Rattle.lines.specs.Words.{number_of, word_of, row, shape};
ghost use Rattle.lines.specs.inner.Keys.{packed, position, keys};

use crate::keyword;
use texts::same;

// What a line makes.
#[derive(Clone, Copy, Debug, PartialEq, Eq)]
pub enum Makes {
    Sort,
    Input,
    Value,
    Root,
}

// A keyword's row: what its line makes, how many references and numbers it has, and the base of a constant, 0 for none.
// (0 and no Option: `shape` and `constant_bad` have a number there.)
#[derive(Clone, Copy, Debug, PartialEq, Eq)]
pub struct Row {
    pub makes: Makes,
    pub refs: u8,
    pub numbers: u8,
    pub base: u8,
}

// The number that tells a short word: its bytes, the first lowest, under a 1.
// (A loop and no `fold`: that the number stays below 2^64 is known at a turn, and a closure would have to ask for it.)
fn key_of(t: &[u8]) -> u64
    requires { length t.now ≤ 7 }
    ensures { result ≡ packed t.now }
{
    let mut n: u64 = 1;
    for i in (0..t.len()).rev() {
        n = 256 * n + u64::from(t[i]);
    }
    n
}

// The number of each keyword of the list; the last is too long for one, and has 0, as in `keys`, which no word's number is.
const KEYS: [u64; 28] = [
    6248623987,
    1599698136681,
    6164735354,
    23424623,
    6230994543,
    1599664451427,
    391926292311907,
    396324338823011,
    24407918,
    23359073,
    94831,
    24276856,
    23356513,
    23229811,
    23885165,
    23882867,
    23884403,
    23163507,
    94565,
    24208750,
    24407157,
    24407155,
    23426153,
    409436605542243,
    1534971178099,
    6249014645,
    6249014643,
    0,
];

// The keyword that a number tells; 28 where it tells none. (The table is taken out of the loop: it would be laid out anew at each turn.)
// (28, and the index, as `position` counts.)
#[tactic(auto, using(crate::specs::laws::Keys::position_starts, crate::specs::laws::Keys::position_turn, crate::specs::laws::Keys::position_found, crate::specs::laws::Keys::position_over))]
fn place_of(key: u64) -> u8
    ensures { result ≡ position key keys }
{
    let keys = KEYS;
    for i in 0..28 {
        if keys[usize::from(i)] == key {
            return i;
        }
    }
    28
}

// The number of a keyword, 28 for a word outside the list: a number and no Option, as `number_of_determined` has it.
pub fn number_of(t: &[u8]) -> u8
    ensures { result ≡ number_of t.now }
{
    if t.len() <= 7 {
        return place_of(key_of(t));
    }
    if same(t, b"constraint") {
        return keyword::CONSTRAINT;
    }
    keyword::OUTSIDE
}

fn new_row(makes: Makes, refs: u8, numbers: u8, base: u8) -> Row
    ensures { result ≡ row makes refs numbers base }
{
    Row {
        makes,
        refs,
        numbers,
        base,
    }
}

/// The row of a keyword; a word outside the list has the last.
#[tactic(auto, unfolding(crate::specs::Words::shape), using(crate::specs::laws::Word::past_words))]
pub fn row_of(word: u8) -> Row
    ensures row { result ≡ shape (word_of word) }
    ensures refs { result.refs ≤ 3 }
    ensures numbers { result.numbers ≤ 2 }
{
    match word {
        keyword::SORT => new_row(Makes::Sort, 0, 1, 0),
        keyword::INPUT => new_row(Makes::Input, 0, 0, 0),
        keyword::ZERO | keyword::ONE | keyword::ONES => new_row(Makes::Value, 0, 0, 0),
        keyword::CONST => new_row(Makes::Value, 0, 0, 2),
        keyword::CONSTD => new_row(Makes::Value, 0, 0, 10),
        keyword::CONSTH => new_row(Makes::Value, 0, 0, 16),
        keyword::NOT => new_row(Makes::Value, 1, 0, 0),
        keyword::AND
        | keyword::OR
        | keyword::XOR
        | keyword::ADD
        | keyword::SUB
        | keyword::MUL
        | keyword::SLL
        | keyword::SRL
        | keyword::SRA
        | keyword::EQ
        | keyword::NEQ
        | keyword::ULT
        | keyword::SLT
        | keyword::CONCAT => new_row(Makes::Value, 2, 0, 0),
        keyword::ITE => new_row(Makes::Value, 3, 0, 0),
        keyword::SLICE => new_row(Makes::Value, 1, 2, 0),
        keyword::UEXT | keyword::SEXT => new_row(Makes::Value, 1, 1, 0),
        keyword::CONSTRAINT => new_row(Makes::Root, 1, 0, 0),
        keyword::OUTSIDE..=u8::MAX => new_row(Makes::Root, 0, 0, 0),
    }
}

// Each column by itself, named for who asks for one: one line each, and each promises its own.
pub fn refs_of(word: u8) -> u8
    ensures { result ≡ (shape (word_of word)).refs }
{
    row_of(word).refs
}

pub fn numbers_of(word: u8) -> u8
    ensures { result ≡ (shape (word_of word)).numbers }
{
    row_of(word).numbers
}

pub fn base_of(word: u8) -> u8
    ensures { result ≡ (shape (word_of word)).base }
{
    row_of(word).base
}

pub fn makes_of(word: u8) -> Makes
    ensures { result ≡ (shape (word_of word)).makes }
{
    row_of(word).makes
}
