// The tables and states that the lines of the sheet name.
ghost use Rattle.std.specs.Prelude.{◌<◌, ◌≤◌};

use crate::letters::{find, number, place};
use rules::{Calendar, Head, Phase, State, Table};

// The numbers before a table line's wakes: N, S, P.
const BEFORE_WAKES: usize = 3;

// The numbers before a state line's heads: N, clock and the calendar's five.
const BEFORE_HEADS: usize = 7;

// The wake that a table line names for a place: the first one where it names too few, or 0, and none above N.
fn wake(line: &[u8], k: usize) -> u32
    requires { k < 64 }
{
    if k >= number::<u8>(line, 0) as usize {
        return 0;
    }
    match number(line, k + BEFORE_WAKES) {
        0 => number(line, BEFORE_WAKES),
        named => named,
    }
}

// The table of a line: N, S, P, wakes.
pub fn table(line: &[u8]) -> Table {
    Table {
        n: number(line, 0),
        s: number(line, 1),
        p: number(line, 2),
        wakes: std::array::from_fn(|k| wake(line, k)),
    }
}

// The table with one wake set, by a line: head, wake.
pub fn alter_wake(t: Table, line: &[u8]) -> Table {
    let mut u = t;
    u.wakes[place(line, State::MAX_HEADS)] = number(line, 1);
    u
}

// The calendar of a line behind some other numbers: hearers, kind, origin, sent, delivery.
pub fn calendar(line: &[u8], before: usize) -> Calendar
    requires { before ≤ 2 }
{
    Calendar {
        hearers: number(line, before),
        kind: number(line, before + 1),
        origin: number(line, before + 2),
        sent: number(line, before + 3),
        delivery: number(line, before + 4),
    }
}

fn phase(kind: u64, slot: u8) -> Phase {
    match kind {
        0 => Phase::Init,
        1 => Phase::Listen,
        2 => Phase::Coldstart,
        _ => Phase::Active(slot),
    }
}

// The head of a line behind some other numbers: phase, slot, timeout; all zero where there are no more numbers.
pub fn head(line: &[u8], before: usize) -> Head
    requires { before ≤ 196 }
{
    Head {
        phase: phase(number(line, before), number(line, before + 1)),
        timeout: number(line, before + 2),
    }
}

// May stand in a state line for a phase that it does not name, as sheets may have it.
const NO_PHASE: u64 = 4;

// The head that a state line names for a place: the first one where it names too few for N, and zeros where it names none above N.
fn head_for(line: &[u8], k: usize, n: u8) -> Head
    requires { k < 64 }
{
    let before = BEFORE_HEADS + 3 * k;
    match find(line, before) {
        None | Some(NO_PHASE) if k < n as usize => head(line, BEFORE_HEADS),
        _ => head(line, before),
    }
}

// The state of a line: N, clock, the calendar's five, then three for each head.
pub fn state(line: &[u8]) -> State {
    let n = number(line, 0);
    State {
        clock: number(line, 1),
        n,
        calendar: calendar(line, 2),
        heads: std::array::from_fn(|k| head_for(line, k, n)),
    }
}
