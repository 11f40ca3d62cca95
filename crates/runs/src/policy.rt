// A run by the fixed policy: the first step of the step list, again and again.
ghost use Rattle.std.specs.Prelude.{◌≡◌, min};
ghost use Rattle.words.specs.Pair.{head_number};
ghost use Rattle.steps.specs.Parts.{place};
ghost use Rattle.runs.specs.Run.{told};
ghost use Rattle.runs.specs.Chosen.{longest_run, policy_from, policy};

use crate::run::Run;
use crate::{Ran, stopped};
use rules::{Fit, State, Table};
use steps::place;
use words::Step;

// Plays up to count steps, a count above the longest run taken as the longest. It stops early, with nothing refused, where no step is open.
pub fn run_policy(t: Table, s: State, count: usize) -> Ran
    ensures { told result ≡ policy t s count }
{
    match Fit::of(t, s) {
        Ok(fit) => run_policy_fit(fit, count),
        Err(why) => stopped(s, 0, Err(why)),
    }
}

// The same on a table and a state that fit.
pub fn run_policy_fit(fit: Fit, count: usize) -> Ran
    ensures { told result ≡ policy_from fit.table fit.state 0 (min count longest_run) }
{
    policy_from(fit, count.min(Ran::LONGEST))
}

// What the search finds is due, so it is taken without another test; only an advance can be refused, by the ceiling. A step leaves nothing due
// at heads below the one that moved, so the next search starts there.
fn policy_from(fit: Fit, count: usize) -> Ran
    ensures { told result ≡ policy_from fit.table fit.state 0 count }
{
    let mut run = Run::on(fit);
    let mut from: usize = 0;
    for taken in 0..count {
        let x = run.first_due(from);
        let Ok(()) = run.take(x) else {
            return stopped(run.state, taken, Ok(()));
        };
        from = from_after(x);
    }
    stopped(run.state, count, Ok(()))
}

// Where the next search starts: at the head that moved; after an advance at the first.
#[tactic(auto, unfolding(steps::specs::Parts::place))]
fn from_after(x: Step) -> usize
    ensures { result ≡ place (head_number x) }
{
    match x {
        Step::Advance => 0,
        Step::Timer(i) | Step::Hear(i) => place(i),
    }
}
