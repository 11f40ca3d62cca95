// The step list: every step that is accepted now, in lent room.
ghost use Rattle.std.specs.Prelude.{◌≡◌, ◌+◌, ◌≤◌};
ghost use Rattle.rules.specs.Limits.{max_heads};
ghost use Rattle.runs.specs.Open.{open_to, open_steps};
ghost use Rattle.rules.specs.Judge.{record_refusal};
ghost use Rattle.rules.specs.Room.{Wrote};
ghost use Rattle.runs.specs.Listing.{list_image};
ghost use Rattle.runs.specs.Gathered.{most_bytes, no_pairs, Holds, Adds};

use crate::search::hear_due;
use rules::{Fit, State, Table};
use steps::{instant, timeouts};
use words::{Refusal, Step};

// Steps in bytes, gathered before any is written to the room: the first used bytes hold them. Sixty-four heads have at most two steps
// each, of two bytes. There is no heap, so it is no Vec.
#[derive(Clone, Copy)]
struct Pairs {
    bytes: [u8; Pairs::MOST],
    used: usize,
}

impl Pairs {
    const MOST: usize = 256;

    fn new() -> Pairs
        ensures { result ≡ no_pairs }
    {
        Pairs {
            bytes: [0; Pairs::MOST],
            used: 0,
        }
    }

    // One more step at the end.
    fn push(&mut self, x: Step)
        requires { self.old.used + 2 ≤ most_bytes }
        ensures { Adds self.old x self.new }
    {
        self.bytes[self.used] = x.kind();
        self.bytes[self.used + 1] = x.head();
        self.used += 2;
    }
}

// Writes the open steps as pairs of bytes and answers how many bytes they take; where it refuses, the room is left as it was.
pub fn open_steps(t: Table, s: State, room: &mut [u8]) -> Result<usize, Refusal>
    ensures { Wrote result (record_refusal t s) (list_image t s) room.old room.new }
{
    open_steps_fit(Fit::of(t, s)?, room)
}

// The same for a table and a state that fit: only the room can be too short.
pub fn open_steps_fit(fit: Fit, room: &mut [u8]) -> Result<usize, Refusal>
    ensures { Wrote result 0 (list_image fit.table fit.state) room.old room.new }
{
    let found = open_pairs(fit);
    let bytes = &found.bytes[..found.used];
    if room.len() < bytes.len() {
        return Err(Refusal::ShortRoom);
    }
    room[..bytes.len()].copy_from_slice(bytes);
    Ok(bytes.len())
}

// What is due; where nothing is, advance alone, unless it would pass the ceiling.
fn open_pairs(fit: Fit) -> Pairs
    ensures { Holds result (open_steps fit.table fit.state) }
{
    let t = fit.table;
    let s = fit.state;
    let mut found = due_pairs(s, t.n);
    if found.used == 0 && instant(&timeouts(s), t.n, s.calendar) <= State::CEILING {
        found.push(Step::Advance);
    }
    found
}

// What is due, heads rising, timer before hear for one head.
fn due_pairs(s: State, n: u8) -> Pairs
    requires { n ≤ max_heads }
    ensures { Holds result (open_to s n) }
{
    let mut found = Pairs::new();
    for k in 0..n {
        if s.heads[k as usize].timeout == s.clock {
            found.push(Step::Timer(k + 1));
        }
        if hear_due(s.clock, s.calendar, k + 1) {
            found.push(Step::Hear(k + 1));
        }
    }
    found
}
