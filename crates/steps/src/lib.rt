// The steps themselves, on a table and a state that are known to fit: what each kind makes of the clock, of the calendar and of the
// head that it names, and a proposed step attempted on a whole state. Nothing here looks at the record rules again, so a run can
// check its table and state once and then step, and the parts let it do so in place. Each function that makes something of a step
// matches its kinds. It uses words, hearers and rules; judge puts the record checks in front of it for everybody else.
#![tactic(auto)]

ghost use Rattle.std.specs.Prelude.{◌≡◌, ◌≤◌};
ghost use Rattle.rules.specs.Limits.{max_heads};
ghost use Rattle.words.specs.Refusal.{verdict_number};
ghost use Rattle.words.specs.Answer.{Answers};
ghost use Rattle.rules.specs.Judge.{step_refusal, state_after};
ghost use Rattle.steps.specs.Parts.{part_refusal, calendar_after, head_after};
ghost use Rattle.steps.specs.Ready.{Ready};

use rules::{Calendar, Fit, Head, State, Table};
use words::{Answer, Step, Verdict};

pub mod advancing;
pub mod hearing;
mod movers;
mod places;
pub mod sending;
pub mod timing;

pub use advancing::instant;
pub use movers::Mover;
pub use places::{place, timeouts};

// A proposed step on a table and a state that fit: the next state, or the refusal (7 to 11, 13) and the state as it was given. The state is
// copied once; a run copies none, so it has a step of its own over the same parts (runs/src/run.rt).
pub fn attempt(fit: Fit, x: Step) -> Answer<State>
    ensures { Answers result (step_refusal fit.table fit.state x) (state_after fit.table fit.state x (step_refusal fit.table fit.state x)) }
{
    let t = fit.table;
    let s = fit.state;
    let c = s.calendar;
    let at = place(x.head());
    let h = s.heads[at];
    let all = timeouts(s);
    let later = advancing::clock_after(&all, t.n, s.clock, c, x);
    if let Err(why) = verdict(t, s.clock, later, c, h, x) {
        return Err(why.with(s));
    }
    let mut next = s;
    next.clock = later;
    next.calendar = calendar_after(t, s.clock, c, h, x);
    next.heads[at] = head_after(t, s.clock, c, h, x);
    Ok(next)
}

// Whether a step is accepted, by the clock after it and the head that it names.
#[tactic(auto, unfolding(crate::specs::Parts::part_refusal))]
fn verdict(t: Table, clock: u32, later: u32, c: Calendar, h: Head, x: Step) -> Verdict
    requires { t.n ≤ max_heads }
    ensures { verdict_number result ≡ part_refusal t clock later c h x }
{
    match x {
        Step::Advance => advancing::verdict(clock, later),
        Step::Timer(i) => timing::verdict(t, clock, h, i),
        Step::Hear(i) => hearing::verdict(t, clock, c, i),
    }
}

// The calendar after a step.
#[tactic(auto, unfolding(crate::specs::Parts::calendar_after, crate::specs::Ready::Ready), using(crate::proofs::Laws::sent_frame))]
fn calendar_after(t: Table, clock: u32, c: Calendar, h: Head, x: Step) -> Calendar
    requires { Ready t clock x }
    ensures { result ≡ calendar_after t clock c h x }
{
    match x {
        Step::Advance => c,
        Step::Timer(i) => {
            let frame = timing::timer_frame(t, i, h.phase);
            Mover {
                table: &t,
                clock,
                head: i,
            }
            .sends(frame, c)
        }
        Step::Hear(i) => sending::left(c, i),
    }
}

// The head that a step names, after it.
#[tactic(auto, unfolding(crate::specs::Parts::head_after, crate::specs::Ready::Ready))]
fn head_after(t: Table, clock: u32, c: Calendar, h: Head, x: Step) -> Head
    requires { Ready t clock x }
    ensures { result ≡ head_after t clock c h x }
{
    match x {
        Step::Advance => h,
        Step::Timer(i) => Mover {
            table: &t,
            clock,
            head: i,
        }
        .timer_head(h.phase),
        Step::Hear(i) => Mover {
            table: &t,
            clock,
            head: i,
        }
        .hear_head(c, h),
    }
}
