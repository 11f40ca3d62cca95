// Which breaks a book admits.
ghost use Rattle.std.specs.Prelude.{◌≡◌, ◌&&◌, ◌≤◌};
ghost use Rattle.words.specs.Refusal.{verdict_number};
ghost use Rattle.rules.specs.Limits.{max_heads};
ghost use Rattle.rules.specs.Table.{is_head};
ghost use Rattle.rules.specs.State.{phase_of};
ghost use Rattle.book.specs.Breaks.{active, admit_refusal};

use crate::Book;
use rules::{Phase, State, Table};
use words::{Refusal, Verdict};

impl Book {
    // A break of head i at the state's clock: not before the last break (16), and of an active head (17). N alone is asked, for a `Fit`
    // would ask more.
    #[tactic(auto, unfolding(crate::specs::Breaks::admit_refusal, crate::specs::Breaks::clock_refusal, crate::specs::Breaks::head_refusal, words::specs::Refusal::first_refusal, words::specs::Refusal::unless))]
    pub fn admits(self, t: Table, s: State, i: u8) -> Verdict
        requires { t.n ≤ max_heads }
        ensures { verdict_number result ≡ admit_refusal t s self i }
    {
        if s.clock < self.latest {
            return Err(Refusal::BeforeLastBreak);
        }
        if !is_active(t, s, i) {
            return Err(Refusal::NotActive);
        }
        Ok(())
    }
}

// Whether i is a head, and active.
#[tactic(auto, unfolding(rules::specs::Table::is_head, rules::specs::State::head_of, crate::specs::Breaks::active), using(rules::proofs::Checks::head_at))]
fn is_active(t: Table, s: State, i: u8) -> bool
    requires { t.n ≤ max_heads }
    ensures { result ≡ (is_head t i && active (phase_of s i)) }
{
    t.is_head(i) && matches!(s.heads[i as usize - 1].phase, Phase::Active(_))
}
