// A state in parts. A step reads the clock, the calendar, the timeouts and the head that it names, and changes no more than the
// clock, the calendar and that head; who keeps a state in place, as a run does, copies nothing else.
ghost use Rattle.std.specs.Prelude.{◌≡◌};
ghost use Rattle.steps.specs.Parts.{place, timeouts};

use rules::State;

// Where the head that a step names stands; the first place where it names none. No Option: who asks has a step that is tested elsewhere.
// The 1 is taken off the byte: off a `usize` the compiler does not see that no place is below 0, and a run reads its calendar anew at each step.
#[tactic(auto, unfolding(crate::specs::Parts::place))]
pub fn place(i: u8) -> usize
    ensures { result ≡ place i }
{
    if 1 <= i && i as usize <= State::MAX_HEADS {
        (i - 1) as usize
    } else {
        0
    }
}

// The timeouts of all places, side by side, so that a search runs over numbers alone. A loop fills them: the array's `map` moves every
// head several times over, and a judged step took twice as long with it.
pub fn timeouts(s: State) -> [u32; State::MAX_HEADS]
    ensures { result ≡ timeouts s.heads }
{
    let mut all = [0; State::MAX_HEADS];
    for (k, head) in s.heads.iter().enumerate() {
        all[k] = head.timeout;
    }
    all
}
