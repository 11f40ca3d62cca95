// A step in bytes is a pair: 0,0 advance; 1,i timer; 2,i hear. `From` of two bytes, and of a step, would not say which byte is which.
ghost use Rattle.std.specs.Prelude.{◌≡◌};
ghost use Rattle.words.specs.Pair.{kind_of, head_number, step_of};

use crate::Step;

impl Step {
    // The step that a pair names. Any other pair reads as the timer of head 0, which every table refuses (7): it
    // could not fail before, so it is no Option.
    #[tactic(auto, unfolding(crate::specs::Pair::step_of))]
    pub fn read(kind: u8, i: u8) -> Step
        ensures { result ≡ step_of kind i }
    {
        match kind {
            0 if i == 0 => Step::Advance,
            1 => Step::Timer(i),
            2 => Step::Hear(i),
            _ => Step::Timer(0),
        }
    }

    // The first byte of a step's pair.
    pub fn kind(self) -> u8
        ensures { result ≡ kind_of self }
    {
        match self {
            Step::Advance => 0,
            Step::Timer(_) => 1,
            Step::Hear(_) => 2,
        }
    }

    // The second byte of a step's pair.
    pub fn head(self) -> u8
        ensures { result ≡ head_number self }
    {
        match self {
            Step::Advance => 0,
            Step::Timer(i) | Step::Hear(i) => i,
        }
    }
}
