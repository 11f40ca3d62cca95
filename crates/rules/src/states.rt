// A state: its limits, the fresh state of a table, and whether its record meets the state rules.
ghost use Rattle.std.specs.Prelude.{◌≡◌, true};
ghost use Rattle.words.specs.Refusal.{verdict_number};
ghost use Rattle.words.specs.Answer.{Answers};
ghost use Rattle.rules.specs.Table.{table_fits, table_refusal};
ghost use Rattle.rules.specs.State.{state_fits, blank, fresh, fresh_or_blank};
ghost use Rattle.rules.specs.Judge.{record_refusal};

use crate::bounds::Bounds;
use crate::{Calendar, Head, Phase, State, Table};
use words::{Answer, Refusal, Verdict};

impl Head {
    // A head place that is zero.
    pub const ZERO: Head = Head {
        phase: Phase::Init,
        timeout: 0,
    };
}

impl State {
    pub const MAX_HEADS: usize = 64;

    pub const CEILING: u32 = 1000000000;

    // The all-zero record.
    pub fn blank() -> State
        ensures { result ≡ blank }
    {
        State {
            clock: 0,
            n: 0,
            calendar: Calendar::empty(),
            heads: [Head::ZERO; State::MAX_HEADS],
        }
    }

    // The fresh state of a table, or 3 with a blank record.
    #[tactic(auto, unfolding(crate::specs::State::fresh_or_blank, crate::specs::Table::table_refusal, words::specs::Refusal::unless), using(crate::proofs::Checks::accepted_table, crate::proofs::Checks::refused_table))]
    pub fn fresh(t: Table) -> Answer<State>
        ensures { Answers result (table_refusal t) (fresh_or_blank t) }
    {
        match t.check() {
            Ok(()) => Ok(State::fresh_fit(t)),
            Err(why) => Err(why.with(State::blank())),
        }
    }

    // The same of a table that is known to fit. A loop fills the heads: with the array's `map`, which moves each several times over, a fresh
    // state took twice as long.
    #[tactic(auto, unfolding(crate::specs::State::fresh))]
    pub fn fresh_fit(t: Table) -> State
        ensures { result ≡ fresh t }
    {
        let mut heads = [Head::ZERO; State::MAX_HEADS];
        for (k, &wake) in t.wakes.iter().enumerate() {
            heads[k] = Head {
                phase: Phase::Init,
                timeout: wake,
            };
        }
        State {
            n: t.n,
            heads,
            ..State::blank()
        }
    }

    // The table rules (3), then the state rules (6).
    pub fn check(self, t: Table) -> Verdict
        ensures { verdict_number result ≡ record_refusal t self }
    {
        t.check()?;
        if self.fits(t) {
            Ok(())
        } else {
            Err(Refusal::StateRule)
        }
    }

    // Whether the state rules hold, against a table that is known to fit: a fact about this one argument, as its callers have it.
    #[tactic(auto, unfolding(crate::specs::State::state_fits, crate::specs::State::front_fits), using(crate::proofs::Known::state_places))]
    pub fn fits(self, t: Table) -> bool
        requires { table_fits t ≡ true }
        ensures { result ≡ state_fits t self }
    {
        if State::CEILING < self.clock || self.n != t.n {
            return false;
        }
        let bounds = Bounds {
            table: &t,
            clock: self.clock,
        };
        bounds.calendar_fits(self.calendar) && bounds.heads_fit(&self.heads)
    }
}
