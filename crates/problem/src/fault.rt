// The refusals by name, each with its number.
ghost use Rattle.std.specs.Prelude.{◌≡◌};
ghost use Rattle.problem.specs.Faults.{fault_number};

use crate::Refusal;

/// Why a call is refused. The problem check tells the first fourteen and `Repeat`; the others are told by the calls that are built
/// on it.
#[derive(Clone, Copy, Debug, PartialEq, Eq)]
pub enum Fault {
    /// Fewer than 9 bytes.
    Short,
    /// The mark is not `TBV`.
    Mark,
    /// The version is not 1.
    Version,
    /// Over 1,024 nodes.
    Nodes,
    /// Over 256 roots.
    Roots,
    /// Not as long as the header says.
    Length,
    /// A kind that there is not.
    Kind,
    /// A width of 0, or over 64.
    Width,
    /// A division over 16 bits.
    Division,
    /// An operand that does not stand below its reader.
    Operand,
    /// A field that the kind does not use is not zero.
    Field,
    /// The width rule is broken.
    Rule,
    /// A pair that is none of the width, or a constant's that is not fixed.
    Pair,
    /// A root that is no node, or not of width 1.
    Root,
    /// A root that stands earlier too.
    Repeat,
    /// Fewer places than nodes.
    Places,
    /// A variable's start that does not agree with its pair.
    Start,
    /// Too many starts, or a list that has not one entry for each.
    Starts,
    /// A tape that is shorter than its stretches.
    Tape,
    /// Fewer places than the starts need.
    Room,
    /// An operand that is no node.
    Beyond,
    /// Operands that form a circle.
    Circle,
    /// No name, or more than 8.
    Names,
    /// A name of no variable, or given twice.
    Name,
    /// A lent output that is too short.
    Output,
    /// Fewer places than what is kept needs.
    Keep,
    /// Fewer places than the answers need.
    Answers,
}

impl Fault {
    /// The number that callers are told.
    pub fn number(self) -> u8
        ensures { result ≡ fault_number self }
    {
        match self {
            Fault::Short => 1,
            Fault::Mark => 2,
            Fault::Version => 3,
            Fault::Nodes => 4,
            Fault::Roots => 5,
            Fault::Length => 6,
            Fault::Kind => 7,
            Fault::Width => 8,
            Fault::Operand => 9,
            Fault::Field => 10,
            Fault::Rule => 11,
            Fault::Pair => 12,
            Fault::Root => 13,
            Fault::Places => 14,
            Fault::Start => 15,
            Fault::Repeat => 16,
            Fault::Starts => 17,
            Fault::Tape => 18,
            Fault::Room => 19,
            Fault::Division => 20,
            Fault::Beyond => 21,
            Fault::Circle => 22,
            Fault::Names => 23,
            Fault::Name => 24,
            Fault::Output => 25,
            Fault::Keep => 26,
            Fault::Answers => 255,
        }
    }

    /// The refusal for it, at a place.
    pub fn at(self, place: u16) -> Refusal
        ensures { result ≡ record { number = fault_number self; place = place } }
    {
        Refusal {
            number: self.number(),
            place,
        }
    }
}
