// The search for the first due step.
ghost use Rattle.std.specs.Prelude.{◌≡◌, ◌≤◌, []};
ghost use Rattle.rules.specs.Limits.{max_heads};
ghost use Rattle.words.specs.Pair.{head_number};
ghost use Rattle.rules.specs.Calendar.{hear_due};
ghost use Rattle.steps.specs.Parts.{place};
ghost use Rattle.runs.specs.Open.{first_or};
ghost use Rattle.runs.specs.Search.{due_to};

use rules::{Calendar, State};
use words::Step;

// Whether head i hears the frame now.
#[tactic(auto, unfolding(rules::specs::Calendar::hear_due, rules::specs::Calendar::hears))]
pub fn hear_due(clock: u32, c: Calendar, i: u8) -> bool
    requires { (1 ≤ i) × (i ≤ max_heads) }
    ensures { result ≡ hear_due clock c i }
{
    hearers::has(c.hearers, i) && c.delivery == clock
}

// The first due step of heads 1 to n, timer before hear for one head, searched from a place before which nothing is due; advance
// where nothing is due at all. Nothing is due before the place of what is found, so the next search may start there. 01 has this search be
// a loop that yields by `break`.
pub fn first_due(
    timeouts: &[u32; State::MAX_HEADS],
    clock: u32,
    c: Calendar,
    from: usize,
    n: u8,
) -> Step
    requires { (from ≤ n) × (n ≤ max_heads) × (due_to timeouts.now clock c from ≡ []) }
    ensures first { result ≡ first_or Step.Advance (due_to timeouts.now clock c n) }
    ensures quiet { due_to timeouts.now clock c (place (head_number result)) ≡ [] }
{
    let mut i = from as u8;
    loop {
        if i == n {
            break Step::Advance;
        }
        if timeouts[i as usize] == clock {
            break Step::Timer(i + 1);
        }
        if hear_due(clock, c, i + 1) {
            break Step::Hear(i + 1);
        }
        i += 1;
    }
}
