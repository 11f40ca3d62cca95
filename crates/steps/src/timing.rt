// A head's timer: what it makes of the head, and which frame it sends.
ghost use Rattle.std.specs.Prelude.{◌≡◌};
ghost use Rattle.words.specs.Refusal.{verdict_number};
ghost use Rattle.rules.specs.Step.{slot_after, timer_head, timer_frame};
ghost use Rattle.steps.specs.Parts.{frame_of, timer_refusal};

use crate::Mover;
use rules::{Calendar, Head, Phase, Table};
use words::{Refusal, Verdict};

// The next slot: N is followed by 1.
#[tactic(auto, unfolding(rules::specs::Step::slot_after))]
fn slot_after(t: Table, k: u8) -> u8
    ensures { result ≡ slot_after t k }
{
    if k < t.n { k + 1 } else { 1 }
}

impl Mover<'_> {
    // The head after its timer, by its phase before.
    #[tactic(auto, unfolding(rules::specs::Step::timer_head))]
    pub fn timer_head(&self, p: Phase) -> Head
        ensures { result ≡ timer_head self.now.table.now self.now.clock self.now.head p }
    {
        let t = self.table;
        match p {
            Phase::Init => Head {
                phase: Phase::Listen,
                timeout: self.clock + t.listen_wait(self.head),
            },
            Phase::Listen | Phase::Coldstart => Head {
                phase: Phase::Coldstart,
                timeout: self.clock + t.coldstart_wait(self.head),
            },
            Phase::Active(k) => Head {
                phase: Phase::Active(slot_after(*t, k)),
                timeout: self.clock + t.s as u32,
            },
        }
    }
}

// The kind of frame that head i's timer sends, if any: a number, as a calendar has it.
#[tactic(auto, unfolding(rules::specs::Step::timer_frame, crate::specs::Parts::frame_of))]
pub fn timer_frame(t: Table, i: u8, p: Phase) -> Option<u8>
    ensures { result ≡ frame_of (timer_frame t i p) }
{
    match p {
        Phase::Listen | Phase::Coldstart => Some(Calendar::COLDSTART_FRAME),
        Phase::Active(k) if slot_after(t, k) == i => Some(Calendar::I_FRAME),
        Phase::Init | Phase::Active(_) => None,
    }
}

// Whether head i's timer may go off.
#[tactic(auto, unfolding(crate::specs::Parts::timer_refusal, words::specs::Refusal::first_refusal, words::specs::Refusal::unless))]
pub fn verdict(t: Table, clock: u32, h: Head, i: u8) -> Verdict
    ensures { verdict_number result ≡ timer_refusal t clock h i }
{
    if !t.is_head(i) {
        Err(Refusal::NoSuchStep)
    } else if h.timeout != clock {
        Err(Refusal::TimerNotDue)
    } else {
        Ok(())
    }
}
