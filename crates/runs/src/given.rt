// A run of given steps.
ghost use Rattle.std.specs.Prelude.{◌≡◌};
ghost use Rattle.runs.specs.Run.{told, run_from, run};

use crate::run::Run;
use crate::{Ran, stopped};
use rules::{Fit, State, Table};
use words::{Refusal, Step};

// Plays steps given as pairs of bytes and stops at the first that is refused, in the state before it. A lone last byte is no step (7).
pub fn run_given(t: Table, s: State, pairs: &[u8]) -> Ran
    ensures { told result ≡ run t s pairs.now }
{
    match Fit::of(t, s) {
        Ok(fit) => run_given_fit(fit, pairs),
        Err(why) => stopped(s, 0, Err(why)),
    }
}

// The same on a table and a state that fit. What is left is asked after, for an odd byte is no step, so the pairs are taken one by one.
pub fn run_given_fit(fit: Fit, pairs: &[u8]) -> Ran
    ensures { told result ≡ run_from fit.table fit.state 0 pairs.now }
{
    let mut run = Run::on(fit);
    let mut accepted: usize = 0;
    let mut left = pairs;
    while let [kind, i, rest @ ..] = left {
        let verdict = run.step(Step::read(*kind, *i));
        let Ok(()) = verdict else {
            return stopped(run.state, accepted, verdict);
        };
        accepted += 1;
        left = rest;
    }
    if left.is_empty() {
        stopped(run.state, accepted, Ok(()))
    } else {
        stopped(run.state, accepted, Err(Refusal::NoSuchStep))
    }
}
