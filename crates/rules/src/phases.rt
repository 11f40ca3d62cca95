// A phase as two numbers, the way an image and a line of a listing write it.
ghost use Rattle.std.specs.Prelude.{◌≡◌};
ghost use Rattle.rules.specs.State.{phase_number, slot_number};

use crate::Phase;

impl Phase {
    // `as` takes no enum of which a case has data.
    pub fn number(self) -> u8
        ensures { result ≡ phase_number self }
    {
        match self {
            Phase::Init => 0,
            Phase::Listen => 1,
            Phase::Coldstart => 2,
            Phase::Active(_) => 3,
        }
    }

    // The slot of an active head, 0 in any other phase, as an image and a line have it.
    pub fn slot(self) -> u8
        ensures { result ≡ slot_number self }
    {
        match self {
            Phase::Init | Phase::Listen | Phase::Coldstart => 0,
            Phase::Active(k) => k,
        }
    }
}
