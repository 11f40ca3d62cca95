// What a call answers. A refusal gives back a record: the one that the call was given, or a blank one where there was none.
ghost use Rattle.std.specs.Prelude.{◌≡◌, Result};
ghost use Rattle.words.specs.Refusal.{verdict_number};

use crate::Refusal;

// Accepted, or refused and why.
pub type Verdict = Result<(), Refusal>;

// A record, or a refusal with the record that comes back.
pub type Answer<T> = Result<T, Refused<T>>;

// Why a call refused, beside the record that it was given, or a blank one where it was given none.
#[derive(Clone, Copy, PartialEq, Eq, Debug)]
pub struct Refused<T> {
    pub why: Refusal,
    pub back: T,
}

impl Refusal {
    // This refusal, with the record that comes back.
    pub fn with<T>(self, given: T) -> Refused<T>
        ensures why { result.why ≡ self }
        ensures back { result.back ≡ given }
    {
        Refused {
            why: self,
            back: given,
        }
    }
}

// Where only the reason counts, `?` drops the record.
impl<T: Drop> From<Refused<T>> for Refusal {
    ghost from_gives = { λ r why. why ≡ r.why };

    fn from(refused: Refused<T>) -> Refusal {
        refused.why
    }
}

// The number of a verdict, or of any result: that of its refusal, or 0 where nothing is refused.
pub fn verdict_number<T: Drop>(v: Result<T, Refusal>) -> u8
    ensures { result ≡ verdict_number v }
{
    match v {
        Ok(_) => 0,
        Err(why) => why.number(),
    }
}
