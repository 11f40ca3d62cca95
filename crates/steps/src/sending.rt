// What a send and a hearing do to the calendar.
ghost use Rattle.std.specs.Prelude.{◌≡◌, ◌≤◌};
ghost use Rattle.rules.specs.Limits.{max_heads};
ghost use Rattle.rules.specs.Calendar.{settled, left, taken, send};
ghost use Rattle.steps.specs.Parts.{sent};

use crate::Mover;
use rules::Calendar;

// Nothing of a frame is kept once nobody waits for it.
#[tactic(auto, unfolding(rules::specs::Calendar::settled, rules::specs::Calendar::quiet))]
fn settled(c: Calendar) -> Calendar
    ensures { result ≡ settled c }
{
    if c.hearers == 0 { Calendar::empty() } else { c }
}

// Head i leaves the hearers.
#[tactic(auto, unfolding(rules::specs::Calendar::left))]
pub fn left(c: Calendar, i: u8) -> Calendar
    requires { (1 ≤ i) × (i ≤ max_heads) }
    ensures { result ≡ left c i }
{
    settled(Calendar {
        hearers: hearers::without(c.hearers, i),
        ..c
    })
}

// The same in place, for a run: while others still wait, one number is written and not the whole calendar.
#[tactic(auto, unfolding(rules::specs::Calendar::left, rules::specs::Calendar::settled, rules::specs::Calendar::quiet))]
pub fn leave(c: &mut Calendar, i: u8)
    requires { (1 ≤ i) × (i ≤ max_heads) }
    ensures { c.new ≡ left c.old i }
{
    c.hearers = hearers::without(c.hearers, i);
    if c.hearers == 0 {
        *c = Calendar::empty();
    }
}

impl Mover<'_> {
    // The calendar takes the frame: all heads but this one wait for it.
    #[tactic(auto, unfolding(rules::specs::Calendar::taken))]
    fn taken(&self, kind: u8) -> Calendar
        ensures { result ≡ taken self.now.table.now self.now.clock kind self.now.head }
    {
        settled(Calendar {
            hearers: hearers::all_but(self.table.n, self.head),
            kind,
            origin: self.head,
            sent: self.clock,
            delivery: self.clock + self.table.p as u32,
        })
    }

    // A frame is sent: dropped where hearers wait, and this head no longer hears; otherwise taken.
    #[tactic(auto, unfolding(rules::specs::Calendar::send, rules::specs::Calendar::quiet))]
    pub fn send(&self, kind: u8, c: Calendar) -> Calendar
        ensures { result ≡ send self.now.table.now self.now.clock kind self.now.head c }
    {
        if c.hearers != 0 {
            left(c, self.head)
        } else {
            self.taken(kind)
        }
    }

    // The calendar after a frame of a kind is sent, or as it was where there is none.
    #[tactic(auto, unfolding(crate::specs::Parts::sent))]
    pub fn sends(&self, kind: Option<u8>, c: Calendar) -> Calendar
        ensures { result ≡ sent self.now.table.now self.now.clock kind self.now.head c }
    {
        match kind {
            Some(kind) => self.send(kind, c),
            None => c,
        }
    }
}
