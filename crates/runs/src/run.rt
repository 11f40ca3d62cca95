// A run under way. The state is kept in place and its timeouts beside it, so that a search runs over numbers alone and a step stores only
// what it changes; the ghost facts say that the record checks need not be made again. A step is compiled into each of the two loops that
// make one: as a call it takes half as long again.
ghost use Rattle.std.specs.Prelude.{◌≡◌, ◌≤◌, true, [], Ok};
ghost use Rattle.words.specs.Refusal.{verdict_number};
ghost use Rattle.words.specs.Pair.{head_number};
ghost use Rattle.rules.specs.Table.{table_fits};
ghost use Rattle.rules.specs.State.{state_fits};
ghost use Rattle.rules.specs.Judge.{step_refusal};
ghost use Rattle.steps.specs.Parts.{place, timeouts};
ghost use Rattle.runs.specs.Open.{open_to, first_due};

use crate::search::first_due;
use rules::{Fit, State, Table};
use steps::{Mover, advancing, hearing, instant, place, sending, timeouts, timing};
use words::{Step, Verdict};

#[derive(Clone, Copy)]
pub struct Run {
    pub table: Table,
    pub state: State,
    pub due: [u32; State::MAX_HEADS],
    ghost table_fits: { table_fits table ≡ true },
    ghost state_fits: { state_fits table state ≡ true },
    ghost beside: { due ≡ timeouts state.heads },
}

impl Run {
    ghost use Rattle.runs.specs.Stepped.{moving_refusal, Stepped};

    pub fn on(fit: Fit) -> Run
        ensures table { result.table ≡ fit.table }
        ensures state { result.state ≡ fit.state }
    {
        Run {
            table: fit.table,
            state: fit.state,
            due: timeouts(fit.state),
        }
    }

    // The first due step of the table's heads, searched from a place before which nothing is due; advance where nothing is due at all.
    pub fn first_due(&self, from: usize) -> Step
        requires { (from ≤ self.now.table.n) × (open_to self.now.state from ≡ []) }
        ensures first { result ≡ first_due self.now.state self.now.table.n }
        ensures quiet { open_to self.now.state (place (head_number result)) ≡ [] }
    {
        first_due(
            &self.due,
            self.state.clock,
            self.state.calendar,
            from,
            self.table.n,
        )
    }

    // One more step, or the refusal, which leaves all as it was.
    #[inline(always)]
    pub fn step(&mut self, x: Step) -> Verdict
        ensures { Stepped x self.old self.new result }
    {
        self.moving_verdict(x)?;
        self.take(x)
    }

    // What refuses a timer or a hearing.
    #[inline(always)]
    #[tactic(auto, using(steps::proofs::Parts::place_below))]
    fn moving_verdict(&self, x: Step) -> Verdict
        ensures { verdict_number result ≡ moving_refusal self.now.table self.now.state x }
    {
        match x {
            Step::Advance => Ok(()),
            Step::Timer(i) => timing::verdict(
                self.table,
                self.state.clock,
                self.state.heads[place(i)],
                i,
            ),
            Step::Hear(i) => hearing::verdict(self.table, self.state.clock, self.state.calendar, i),
        }
    }

    // The same of a timer or a hearing that nothing refuses, as the search finds them; an advance is tested as it is made.
    #[inline(always)]
    pub fn take(&mut self, x: Step) -> Verdict
        requires { moving_refusal self.old.table self.old.state x ≡ 0 }
        ensures { Stepped x self.old self.new result }
    {
        match x {
            Step::Advance => self.advance(),
            Step::Timer(i) => {
                self.timer(i);
                Ok(())
            }
            Step::Hear(i) => {
                self.hear(i);
                Ok(())
            }
        }
    }

    #[inline(always)]
    fn advance(&mut self) -> Verdict
        ensures { Stepped Step.Advance self.old self.new result }
    {
        let next = instant(&self.due, self.table.n, self.state.calendar);
        advancing::verdict(self.state.clock, next)?;
        self.state.clock = next;
        Ok(())
    }

    #[inline(always)]
    #[tactic(auto, using(steps::proofs::Parts::place_below))]
    fn timer(&mut self, i: u8)
        requires { step_refusal self.old.table self.old.state (Step.Timer i) ≡ 0 }
        ensures { Stepped (Step.Timer i) self.old self.new (Ok tt) }
    {
        let at = place(i);
        let head = self.state.heads[at];
        let mover = Mover {
            table: &self.table,
            clock: self.state.clock,
            head: i,
        };
        let moved = mover.timer_head(head.phase);
        self.state.heads[at] = moved;
        self.due[at] = moved.timeout;
        if let Some(kind) = timing::timer_frame(self.table, i, head.phase) {
            self.state.calendar = mover.send(kind, self.state.calendar);
        }
    }

    #[inline(always)]
    #[tactic(auto, using(steps::proofs::Parts::place_below))]
    fn hear(&mut self, i: u8)
        requires { step_refusal self.old.table self.old.state (Step.Hear i) ≡ 0 }
        ensures { Stepped (Step.Hear i) self.old self.new (Ok tt) }
    {
        let frame = self.state.calendar;
        let at = place(i);
        let head = self.state.heads[at];
        sending::leave(&mut self.state.calendar, i);
        if hearing::heeds(head.phase) {
            let mover = Mover {
                table: &self.table,
                clock: self.state.clock,
                head: i,
            };
            let moved = mover.hear_head(frame, head);
            self.state.heads[at] = moved;
            self.due[at] = moved.timeout;
        }
    }
}
