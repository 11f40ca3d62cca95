// What a class does with the bench: see which steps are open, play a list of steps, let the fixed policy play. Each function checks
// its table and its state once, by rules, and then only steps; the one beside it that ends in _fit is for records that are known to
// fit, and checks nothing. It uses words, hearers, rules and steps, and the theorems of exact: that an accepted step keeps the state
// rules is why nothing is checked again on the way.
#![tactic(auto)]

ghost use Rattle.std.specs.Prelude.{◌≡◌};
ghost use Rattle.words.specs.Refusal.{verdict_number};
ghost use Rattle.runs.specs.Run.{stopped, told};

use rules::State;
use words::Verdict;

mod given;
mod listing;
mod policy;
mod run;
mod search;

pub use given::{run_given, run_given_fit};
pub use listing::{open_steps, open_steps_fit};
pub use policy::{run_policy, run_policy_fit};

// What a run answers: the state it came to, how many steps were accepted, and what stopped it. It is no Result, for all three are answered
// whether it was stopped or not.
#[derive(Clone, Copy, PartialEq, Eq, Debug)]
pub struct Ran {
    pub state: State,
    pub accepted: usize,
    pub verdict: Verdict,
}

impl Ran {
    // The longest run that the policy plays.
    pub const LONGEST: usize = 100000;
}

// A run that ends here.
fn stopped(state: State, accepted: usize, verdict: Verdict) -> Ran
    ensures { told result ≡ stopped state accepted (verdict_number verdict) }
{
    Ran {
        state,
        accepted,
        verdict,
    }
}
