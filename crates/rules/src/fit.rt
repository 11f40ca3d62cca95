// A table and a state that are known to fit. Who has such a pair has made the record checks, or has it from a function that keeps them,
// and makes them never again.
ghost use Rattle.std.specs.Prelude.{◌≡◌, true, IfOk};
ghost use Rattle.words.specs.Refusal.{verdict_number};
ghost use Rattle.rules.specs.Table.{table_fits};
ghost use Rattle.rules.specs.State.{state_fits};
ghost use Rattle.rules.specs.Judge.{record_refusal};

use crate::{State, Table};
use words::Refusal;

#[derive(Clone, Copy)]
pub struct Fit {
    pub table: Table,
    pub state: State,
    ghost table_fits: { table_fits table ≡ true },
    ghost state_fits: { state_fits table state ≡ true },
}

impl Fit {
    // The pair, or what refuses the table (3) or the state (6).
    pub fn of(table: Table, state: State) -> Result<Fit, Refusal>
        ensures number { verdict_number result ≡ record_refusal table state }
        ensures table { IfOk result (λ fit. fit.table ≡ table) }
        ensures state { IfOk result (λ fit. fit.state ≡ state) }
    {
        state.check(table)?;
        Ok(Fit { table, state })
    }
}
