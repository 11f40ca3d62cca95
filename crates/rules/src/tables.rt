// A head table: its limits, whether its record fits, and the waits that its numbers give.
ghost use Rattle.std.specs.Prelude.{◌≡◌, ◌+◌, ◌≤◌};
ghost use Rattle.words.specs.Refusal.{verdict_number};
ghost use Rattle.rules.specs.Each.{every};
ghost use Rattle.rules.specs.Limits.{max_heads};
ghost use Rattle.rules.specs.Table.{is_head, round, offset, wake_of, numbers_fit, wake_fits, table_fits, table_refusal};
ghost use Rattle.rules.specs.State.{listen_wait, coldstart_wait};

use crate::{State, Table};
use words::{Refusal, Verdict};

impl Table {
    pub const SHORTEST_SLOT: u16 = 3;

    pub const LONGEST_SLOT: u16 = 10000;

    pub const LATEST_WAKE: u32 = 1000000;

    // The all-zero record.
    pub const BLANK: Table = Table {
        n: 0,
        s: 0,
        p: 0,
        wakes: [0; State::MAX_HEADS],
    };

    // The table rules: accepted, or refused for a number outside its range (3).
    #[tactic(auto, unfolding(crate::specs::Table::table_refusal, words::specs::Refusal::unless))]
    pub fn check(self) -> Verdict
        ensures { verdict_number result ≡ table_refusal self }
    {
        if self.fits() {
            Ok(())
        } else {
            Err(Refusal::TableRange)
        }
    }

    #[tactic(auto, unfolding(crate::specs::Table::table_fits), using(crate::proofs::Known::table_places))]
    fn fits(self) -> bool
        ensures { result ≡ table_fits self }
    {
        numbers_fit(self.n, self.s, self.p) && wakes_fit(self)
    }

    // Whether i is the number of a head.
    #[tactic(auto, unfolding(crate::specs::Table::is_head))]
    pub fn is_head(self, i: u8) -> bool
        ensures { result ≡ is_head self i }
    {
        1 <= i && i <= self.n
    }

    // A round: N slots.
    fn round(self) -> u32
        ensures { result ≡ round self }
    {
        self.n as u32 * self.s as u32
    }

    // The part of a round before head i's own slot.
    fn offset(self, i: u8) -> u32
        requires { 1 ≤ i }
        ensures { result ≡ offset self i }
    {
        (i - 1) as u32 * self.s as u32
    }

    // How long head i listens.
    pub fn listen_wait(self, i: u8) -> u32
        requires { 1 ≤ i }
        ensures { result ≡ listen_wait self i }
    {
        2 * self.round() + self.offset(i)
    }

    // How long head i waits in coldstart. 01 gives the two waits apart, and so do the docs.
    pub fn coldstart_wait(self, i: u8) -> u32
        requires { 1 ≤ i }
        ensures { result ≡ coldstart_wait self i }
    {
        self.round() + self.offset(i)
    }
}

#[tactic(auto, unfolding(crate::specs::Table::numbers_fit))]
fn numbers_fit(n: u8, s: u16, p: u16) -> bool
    ensures { result ≡ numbers_fit n s p }
{
    // p may be any number of sixteen bits, so the double is taken in thirty-two
    1 <= n
        && n as usize <= State::MAX_HEADS
        && Table::SHORTEST_SLOT <= s
        && s <= Table::LONGEST_SLOT
        && 1 <= p
        && 2 * (p as u32) < s as u32
}

fn wakes_fit(t: Table) -> bool
    ensures { result ≡ every max_heads (λ i. wake_fits t.n i (wake_of t i)) }
{
    t.wakes
        .iter()
        .enumerate()
        .all(|(k, &wake)| wake_fits(t.n, k as u8 + 1, wake))
}

// The wake tick w of place i: in its range for a head, zero above N.
#[tactic(auto, unfolding(crate::specs::Table::wake_fits))]
fn wake_fits(n: u8, i: u8, w: u32) -> bool
    ensures { result ≡ wake_fits n i w }
{
    if i <= n {
        1 <= w && w <= Table::LATEST_WAKE
    } else {
        w == 0
    }
}
