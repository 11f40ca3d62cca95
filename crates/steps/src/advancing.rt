// The clock moves to the next instant.
ghost use Rattle.std.specs.Prelude.{◌≡◌, ◌≤◌};
ghost use Rattle.rules.specs.Limits.{max_heads};
ghost use Rattle.words.specs.Refusal.{verdict_number};
ghost use Rattle.steps.specs.Parts.{least, instant, clock_after, advance_refusal};

use rules::{Calendar, State};
use words::{Refusal, Step, Verdict};

// The least of the first n timeouts. They, N and the calendar stay apart, as a run has them.
fn least(timeouts: &[u32; State::MAX_HEADS], n: u8) -> u32
    requires { (1 ≤ n) × (n ≤ max_heads) }
    ensures { result ≡ least timeouts.now n }
{
    timeouts[1..n as usize]
        .iter()
        .fold(timeouts[0], |least, &timeout| least.min(timeout))
}

// The least timeout or, if hearers wait and it is earlier, the delivery tick.
#[tactic(auto, unfolding(crate::specs::Parts::instant, rules::specs::Calendar::quiet))]
pub fn instant(timeouts: &[u32; State::MAX_HEADS], n: u8, c: Calendar) -> u32
    requires { (1 ≤ n) × (n ≤ max_heads) }
    ensures { result ≡ instant timeouts.now n c }
{
    let first = least(timeouts, n);
    if c.hearers == 0 {
        first
    } else {
        first.min(c.delivery)
    }
}

// The clock after a step: only an advance moves it.
#[tactic(auto, unfolding(crate::specs::Parts::clock_after))]
pub fn clock_after(
    timeouts: &[u32; State::MAX_HEADS],
    n: u8,
    clock: u32,
    c: Calendar,
    x: Step,
) -> u32
    requires { (1 ≤ n) × (n ≤ max_heads) }
    ensures { result ≡ clock_after timeouts.now n clock c x }
{
    match x {
        Step::Advance => instant(timeouts, n, c),
        Step::Timer(_) | Step::Hear(_) => clock,
    }
}

// Whether an advance to the next instant is accepted. In a state that fits, something is due exactly where the next instant is the
// present one, so one search serves both tests.
#[tactic(auto, unfolding(crate::specs::Parts::advance_refusal, words::specs::Refusal::first_refusal, words::specs::Refusal::unless))]
pub fn verdict(clock: u32, next: u32) -> Verdict
    ensures { verdict_number result ≡ advance_refusal clock next }
{
    if next == clock {
        Err(Refusal::SomethingDue)
    } else if State::CEILING < next {
        Err(Refusal::PastCeiling)
    } else {
        Ok(())
    }
}
