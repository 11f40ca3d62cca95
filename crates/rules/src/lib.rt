// What document 01 speaks of: tables and states as types, and in specs/ every definition over them, from the limits to the judged
// step. Code here is only what belongs to a kind itself: the limits, the two record checks, the fresh state, the waits, a phase's
// two numbers. It uses words and hearers; everything else in the repository stands on it.
#![tactic(auto)]

mod bounds;
mod calendars;
mod fit;
mod phases;
mod states;
mod tables;

pub use fit::Fit;

// A head table: N heads, slots of S ticks, propagation P, and a wake tick for each head; wake places above N are zero.
#[derive(Clone, Copy, PartialEq, Eq, Debug)]
pub struct Table {
    pub n: u8,
    pub s: u16,
    pub p: u16,
    pub wakes: [u32; State::MAX_HEADS],
}

// The one frame on the cable: who has still to hear it, its kind (1 coldstart frame, 2 i-frame), origin, sent and delivery tick.
// With no hearer all of it is zero. The kind is a number, for a record may hold any: one that is neither breaks a state rule (6).
#[derive(Clone, Copy, PartialEq, Eq, Debug)]
pub struct Calendar {
    pub hearers: u64,
    pub kind: u8,
    pub origin: u8,
    pub sent: u32,
    pub delivery: u32,
}

// An active head carries its slot; no other phase has one.
#[derive(Clone, Copy, PartialEq, Eq, Debug)]
pub enum Phase {
    Init,
    Listen,
    Coldstart,
    Active(u8),
}

#[derive(Clone, Copy, PartialEq, Eq, Debug)]
pub struct Head {
    pub phase: Phase,
    pub timeout: u32,
}

// Sixty-four head places, of which the first n are used; the others are zero.
#[derive(Clone, Copy, PartialEq, Eq, Debug)]
pub struct State {
    pub clock: u32,
    pub n: u8,
    pub calendar: Calendar,
    pub heads: [Head; State::MAX_HEADS],
}
