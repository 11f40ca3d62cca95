// The state rules against a table that fits, at a clock within the ceiling: what a calendar and a head place may hold then.
ghost use Rattle.std.specs.Prelude.{◌≡◌, true, ◌≤◌};
ghost use Rattle.rules.specs.Each.{every};
ghost use Rattle.rules.specs.Limits.{max_heads, ceiling};
ghost use Rattle.rules.specs.Table.{table_fits};
ghost use Rattle.rules.specs.Calendar.{frame_fits, calendar_fits};
ghost use Rattle.rules.specs.State.{head_of, head_fits, place_fits};

use crate::{Calendar, Head, Phase, State, Table};

#[derive(Clone, Copy)]
pub struct Bounds<'a> {
    pub table: &'a Table,
    pub clock: u32,
    ghost table_fits: { table_fits table.now ≡ true },
    ghost in_time: { clock ≤ ceiling },
}

impl Bounds<'_> {
    #[tactic(auto, unfolding(crate::specs::Calendar::calendar_fits, crate::specs::Calendar::all_zero, crate::specs::Calendar::quiet))]
    pub fn calendar_fits(&self, c: Calendar) -> bool
        ensures { result ≡ calendar_fits self.now.table.now self.now.clock c }
    {
        if c.hearers == 0 {
            c == Calendar::empty()
        } else {
            self.frame_fits(c)
        }
    }

    #[tactic(auto, unfolding(crate::specs::Calendar::frame_fits, crate::specs::Calendar::hears))]
    fn frame_fits(&self, c: Calendar) -> bool
        ensures { result ≡ frame_fits self.now.table.now self.now.clock c }
    {
        // sent + P may not fit thirty-two bits in a record that is unfit, so it is taken in sixty-four
        hearers::within(c.hearers, self.table.n)
            && Calendar::COLDSTART_FRAME <= c.kind
            && c.kind <= Calendar::I_FRAME
            && self.table.is_head(c.origin)
            && !hearers::has(c.hearers, c.origin)
            && c.delivery as u64 == c.sent as u64 + self.table.p as u64
            && c.sent <= self.clock
            && self.clock <= c.delivery
    }

    pub fn heads_fit(&self, heads: &[Head; State::MAX_HEADS]) -> bool
        ensures { result ≡ every max_heads (λ i. place_fits self.now.table.now self.now.clock i (head_of heads.now i)) }
    {
        heads
            .iter()
            .enumerate()
            .all(|(k, &head)| self.place_fits(k as u8 + 1, head))
    }

    // A head place: a head's rules for 1 to N, zero above.
    #[tactic(auto, unfolding(crate::specs::State::place_fits, crate::specs::State::is_zero))]
    fn place_fits(&self, i: u8, h: Head) -> bool
        requires { (1 ≤ i) × (i ≤ max_heads) }
        ensures { result ≡ place_fits self.now.table.now self.now.clock i h }
    {
        if i <= self.table.n {
            self.head_fits(i, h)
        } else {
            h == Head::ZERO
        }
    }

    #[tactic(auto, unfolding(crate::specs::State::head_fits, crate::specs::State::phase_fits), using(crate::proofs::Checks::wake_at))]
    fn head_fits(&self, i: u8, h: Head) -> bool
        requires { (1 ≤ i) × (i ≤ max_heads) }
        ensures { result ≡ head_fits self.now.table.now self.now.clock i h }
    {
        let t = self.table;
        self.clock <= h.timeout
            && match h.phase {
                Phase::Init => h.timeout == t.wakes[i as usize - 1],
                Phase::Listen => h.timeout <= self.clock + t.listen_wait(i),
                Phase::Coldstart => h.timeout <= self.clock + t.coldstart_wait(i),
                Phase::Active(k) => h.timeout <= self.clock + t.s as u32 && t.is_head(k),
            }
    }
}
