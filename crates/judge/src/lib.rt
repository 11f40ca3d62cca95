// A proposed step judged, for anybody: any table, any state, any step, given as the enum or as its two bytes. The record checks of
// rules come first, then steps attempts the step; nothing is decided here. It uses words, rules and steps.
#![tactic(auto)]

ghost use Rattle.words.specs.Answer.{Answers};
ghost use Rattle.words.specs.Pair.{step_of};
ghost use Rattle.rules.specs.Judge.{refusal, judged};

use rules::{Fit, State, Table};
use words::{Answer, Step};

// The next state of an accepted step, or the refusal and the state as it was given.
pub fn step(t: Table, s: State, x: Step) -> Answer<State>
    ensures { Answers result (refusal t s x) (judged t s x) }
{
    match Fit::of(t, s) {
        Ok(fit) => steps::attempt(fit, x),
        Err(why) => Err(why.with(s)),
    }
}

// The same of a step in bytes: 0,0 advance; 1,i timer; 2,i hear; any other pair is no step (7).
#[tactic(auto, using(crate::proofs::Laws::of_pair))]
pub fn pair(t: Table, s: State, kind: u8, i: u8) -> Answer<State>
    ensures { Answers result (refusal t s (step_of kind i)) (judged t s (step_of kind i)) }
{
    step(t, s, Step::read(kind, i))
}
