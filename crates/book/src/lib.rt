// A book of crossings, whatever kind of post they come from: its places and numbers, what each head's last crossing was, which breaks
// it admits, tails filed in the entry that holds the crossing, release. What makes a crossing is for the crate of a post (single_beam).
// It uses words and rules.
#![tactic(auto)]

mod breaks;
mod calls;
mod checks;
mod places;

use rules::State;

// A held crossing: its number, its tick, whose it is (a head, or what a post goes by), and how many tails were filed in it. A free place
// is all zero: no Option, for a record may hold any fields, and number 0 beside others breaks a rule (25).
#[derive(Clone, Copy, PartialEq, Eq, Debug)]
pub struct Entry {
    pub number: u32,
    pub tick: u32,
    pub head: u8,
    pub tails: u16,
}

// A head's last entered crossing, released or not. Number 0 remembers none, whatever the tick beside it.
#[derive(Clone, Copy, PartialEq, Eq, Debug)]
pub struct Crossing {
    pub number: u32,
    pub tick: u32,
}

// The hold H in ticks, the last number given, the clock of the last break, what each head's last crossing was, and the places, of which
// those with number 0 are free.
#[derive(Clone, Copy, PartialEq, Eq, Debug)]
pub struct Book {
    pub hold: u16,
    pub given: u32,
    pub latest: u32,
    pub remembered: [Crossing; State::MAX_HEADS],
    pub places: [Entry; Book::PLACES],
}
