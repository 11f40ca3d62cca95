// What is in a book: how many places are held, where a number stands, and what of a book is told.
ghost use Rattle.std.specs.Prelude.{◌<◌, IfSome};

use crate::print::{Told, field, text};
use book::{Book, Entry};

// The last number given, the last break and how many places are held.
impl Told for Book {
    fn tell(&self) {
        field(b" given", self.given as u64);
        field(b" last", self.latest as u64);
        let held = self.places.iter().filter(|e| e.number != 0).count();
        field(b" held", held as u64);
    }
}

// The place, counted from 0, that holds a number; the sheet looks for itself. Number 0 stands in every free place, and none of them
// holds it.
fn holder(b: &Book, number: u32) -> Option<usize>
    ensures { IfSome result (λ p. p < 256) }
{
    b.places
        .iter()
        .position(|e| e.number == number && number != 0)
}

// What a head remembers, and the place and the entry of it while it is held.
pub fn crossing(b: &Book, k: usize)
    requires { k < 64 }
{
    let c = b.remembered[k];
    field(b" crossing", c.number as u64);
    field(b" tick", c.tick as u64);
    match holder(b, c.number) {
        Some(p) => entry(b, p),
        None => text(b" not held"),
    }
}

pub fn entry(b: &Book, k: usize)
    requires { k < 256 }
{
    let e = b.places[k];
    field(b" place", (k + 1) as u64);
    field(b" number", e.number as u64);
    field(b" tick", e.tick as u64);
    field(b" head", e.head as u64);
    field(b" tails", e.tails as u64);
}
