// A head hears the frame in the calendar.
ghost use Rattle.std.specs.Prelude.{◌≡◌, ◌≤◌};
ghost use Rattle.words.specs.Refusal.{verdict_number};
ghost use Rattle.rules.specs.Limits.{max_heads};
ghost use Rattle.rules.specs.Step.{listener_wait, joined, hear_head};
ghost use Rattle.steps.specs.Parts.{heeds, hear_refusal};

use crate::Mover;
use rules::{Calendar, Head, Phase, Table};
use words::{Refusal, Verdict};

// How long a listener waits that hears a coldstart frame: a name of its own, for P2 changes it alone.
#[tactic(auto, unfolding(rules::specs::Step::listener_wait))]
fn listener_wait(t: Table, i: u8) -> u32
    requires { 1 ≤ i }
    ensures { result ≡ listener_wait t i }
{
    t.coldstart_wait(i)
}

impl Mover<'_> {
    // A head that joins: the sender's slot, which began one propagation ago.
    #[tactic(auto, unfolding(rules::specs::Step::joined))]
    fn joined(&self, c: Calendar) -> Head
        ensures { result ≡ joined self.now.table.now self.now.clock c }
    {
        Head {
            phase: Phase::Active(c.origin),
            timeout: self.clock + self.table.s as u32 - self.table.p as u32,
        }
    }

    // The head after it has heard the frame, by its phase before.
    #[tactic(auto, unfolding(rules::specs::Step::hear_head))]
    pub fn hear_head(&self, c: Calendar, h: Head) -> Head
        ensures { result ≡ hear_head self.now.table.now self.now.clock self.now.head c h h.phase }
    {
        match h.phase {
            Phase::Listen if c.kind == Calendar::COLDSTART_FRAME => Head {
                phase: Phase::Coldstart,
                timeout: self.clock + listener_wait(*self.table, self.head),
            },
            Phase::Listen | Phase::Coldstart => self.joined(c),
            Phase::Init | Phase::Active(_) => h,
        }
    }
}

// Whether a head in a phase heeds a frame that it hears: in any other phase it stays as it is (`goes_still`, proofs/Parts).
#[tactic(auto, unfolding(crate::specs::Parts::heeds))]
pub fn heeds(p: Phase) -> bool
    ensures { result ≡ heeds p }
{
    matches!(p, Phase::Listen | Phase::Coldstart)
}

// Whether head i may hear.
#[tactic(auto, unfolding(crate::specs::Parts::hear_refusal, words::specs::Refusal::first_refusal, words::specs::Refusal::unless, rules::specs::Calendar::hear_due, rules::specs::Calendar::hears))]
pub fn verdict(t: Table, clock: u32, c: Calendar, i: u8) -> Verdict
    requires { t.n ≤ max_heads }
    ensures { verdict_number result ≡ hear_refusal t clock c i }
{
    if !t.is_head(i) {
        Err(Refusal::NoSuchStep)
    } else if !hearers::has(c.hearers, i) || c.delivery != clock {
        Err(Refusal::NotHearing)
    } else if i == c.origin {
        Err(Refusal::OwnFrame)
    } else {
        Ok(())
    }
}
