// The judgement's own refusals by name, each with its number.
ghost use Rattle.std.specs.Prelude.{◌≡◌};
ghost use Rattle.models.specs.Judgement.{refuse};
ghost use Rattle.models.specs.Reasons.{reason_number};
ghost use Rattle.models.specs.inner.Judging.{said};

use crate::Fault;

// Why names or a text are refused.
#[derive(Clone, Copy, Debug, PartialEq, Eq)]
pub(crate) enum Reason {
    // Too few or many names, or one twice.
    Names,
    // The text is no get-model answer.
    Syntax,
    // An entry of an unknown name.
    Unknown,
    // An entry of a name that an earlier one gave.
    Again,
    // An entry whose sort or value does not fit its variable.
    Misfit,
    // A variable without an entry.
    Absent,
    // A value that contradicts a fixed bit.
    Contradicted,
}

impl Reason {
    // The number that callers are told.
    pub(crate) fn number(self) -> u8
        ensures { result ≡ reason_number self }
    {
        match self {
            Reason::Names => 30,
            Reason::Syntax => 31,
            Reason::Unknown => 32,
            Reason::Again => 33,
            Reason::Misfit => 34,
            Reason::Absent => 35,
            Reason::Contradicted => 36,
        }
    }

    // The refusal for it, at a place.
    pub(crate) fn at(self, place: u64) -> Fault
        ensures { result ≡ record { number = reason_number self; place = place } }
    {
        Fault {
            number: self.number(),
            place,
        }
    }
}

// The refusal for a reason at a place, where it is given.
// (`problem::refuse_if` is of that crate's faults, and `refuse` stands in this one's definitions: no plainer as one.)
#[tactic(auto, unfolding(crate::specs::Judgement::refuse))]
pub(crate) fn refuse_if(given: bool, reason: Reason, place: u64) -> Result<(), Fault>
    ensures { said result ≡ refuse (reason_number reason) place given }
{
    if given {
        return Err(reason.at(place));
    }
    Ok(())
}
