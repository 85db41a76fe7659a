// Why a text is refused: the numbers that a conversion tells, by name. Refusals 1 and 2 are found here, 3 to 5 by the crate `btor2`.
ghost use Rattle.std.specs.Prelude.{◌≡◌};
ghost use Rattle.lines.specs.Faults.{fault_number, told, given_by};

/// What is wrong with a line, in the order in which it is told.
#[derive(Clone, Copy, Debug, PartialEq, Eq)]
pub enum Fault {
    /// It is not of the format.
    Format,
    /// Its keyword is outside the list.
    Keyword,
    /// Its id does not increase, or it names a line that is not defined.
    Id,
    /// Sorts or widths do not fit, or a value is too wide.
    Width,
    /// More nodes, roots or bytes are needed than there may be.
    Room,
}

impl Fault {
    /// The number that is told.
    pub fn number(self) -> u8
        ensures { result ≡ fault_number self }
    {
        match self {
            Fault::Format => 1,
            Fault::Keyword => 2,
            Fault::Id => 3,
            Fault::Width => 4,
            Fault::Room => 5,
        }
    }
}

/// Refuses where a test is given.
// (`problem::refuse_if` is of another fault, with a place, and in a crate that this one does not know.)
pub fn refuse_if(given: bool, fault: Fault) -> Result<(), Fault>
    ensures { told result ≡ given_by fault given }
{
    if given { Err(fault) } else { Ok(()) }
}
