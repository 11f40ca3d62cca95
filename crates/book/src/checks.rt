// A book's limits, the new book, and whether a book meets the book rules.
ghost use Rattle.std.specs.Prelude.{◌≡◌, ◌≤◌, eqb, length, map, take};
ghost use Rattle.std.specs.List.{list_any};
ghost use Rattle.words.specs.Refusal.{verdict_number};
ghost use Rattle.words.specs.Answer.{Answers};
ghost use Rattle.rules.specs.Each.{between};
ghost use Rattle.book.specs.Limits.{longest_hold};
ghost use Rattle.book.specs.Book.{empty_book, hold_refusal, new_or_blank, known, number_in, entry_fits, places_fit, crossing_fits, crossings_fit, book_fits, book_refusal};

use crate::places::stands;
use crate::{Book, Crossing, Entry};
use rules::State;
use words::{Answer, Refusal, Verdict};

impl Entry {
    // A free place.
    pub const FREE: Entry = Entry {
        number: 0,
        tick: 0,
        head: 0,
        tails: 0,
    };
}

impl Crossing {
    // No crossing.
    pub const NONE: Crossing = Crossing { number: 0, tick: 0 };
}

impl Book {
    pub const PLACES: usize = 256;

    pub const LONGEST_HOLD: u16 = 1000;

    // A tail count stays at this one, which is `u16`'s last.
    pub const MOST_TAILS: u16 = 65535;

    pub const LAST_NUMBER: u32 = 4294967295;

    // A new book with a hold of so many ticks, or 15 with a blank record.
    #[tactic(auto, unfolding(crate::specs::Book::hold_refusal, crate::specs::Book::new_or_blank, words::specs::Refusal::unless))]
    pub fn new(hold: u16) -> Answer<Book>
        ensures { Answers result (hold_refusal hold) (new_or_blank hold) }
    {
        if hold_fits(hold) {
            Ok(empty(hold))
        } else {
            Err(Refusal::HoldRange.with(empty(0)))
        }
    }

    // The hold (15), then the book rules (25).
    #[tactic(auto, unfolding(crate::specs::Book::book_refusal, crate::specs::Book::hold_refusal, crate::specs::Book::rules_refusal, words::specs::Refusal::first_refusal, words::specs::Refusal::unless))]
    pub fn check(self) -> Verdict
        ensures { verdict_number result ≡ book_refusal self }
    {
        if !hold_fits(self.hold) {
            return Err(Refusal::HoldRange);
        }
        if !self.fits() {
            return Err(Refusal::BookRule);
        }
        Ok(())
    }

    // Whether the book rules hold.
    #[tactic(auto, unfolding(crate::specs::Book::book_fits), using(crate::proofs::Known::book_places, crate::proofs::Known::book_crossings))]
    fn fits(self) -> bool
        ensures { result ≡ book_fits self }
    {
        self.places_fit() && self.crossings_fit()
    }

    fn places_fit(&self) -> bool
        ensures { result ≡ places_fit self.now.given self.now.latest self.now.places }
    {
        let numbers = self.numbers();
        self.places
            .iter()
            .enumerate()
            .all(|(k, &e)| self.entry_fits(e, &numbers, k))
    }

    // The numbers of the places, side by side, so that one can be looked for among the others at speed. A loop fills them, which is quicker
    // than the array's `map`.
    fn numbers(&self) -> [u32; Book::PLACES]
        ensures { result ≡ map number_in self.now.places }
    {
        let mut numbers = [0; Book::PLACES];
        for k in 0..Book::PLACES {
            numbers[k] = self.places[k].number;
        }
        numbers
    }

    // An entry with so many places below it, whose numbers stand first in the row.
    #[tactic(auto, unfolding(crate::specs::Book::entry_fits, crate::specs::Book::is_zero))]
    fn entry_fits(&self, e: Entry, numbers: &[u32], k: usize) -> bool
        requires { k ≤ length numbers.now }
        ensures { result ≡ entry_fits self.now.given self.now.latest e (list_any (λ a. eqb a e.number) (take k numbers.now)) }
    {
        if e.number == 0 {
            e == Entry::FREE
        } else {
            self.knows(e.number, e.tick) && !stands(&numbers[..k], e.number)
        }
    }

    fn crossings_fit(&self) -> bool
        ensures { result ≡ crossings_fit self.now.given self.now.latest self.now.remembered }
    {
        self.remembered.iter().all(|&c| self.crossing_fits(c))
    }

    #[tactic(auto, unfolding(crate::specs::Book::crossing_fits))]
    fn crossing_fits(&self, c: Crossing) -> bool
        ensures { result ≡ crossing_fits self.now.given self.now.latest c }
    {
        c.number == 0 || self.knows(c.number, c.tick)
    }

    // Whether a crossing's number is one that was given, and its tick not later than the last break.
    #[tactic(auto, unfolding(crate::specs::Book::known))]
    fn knows(&self, number: u32, tick: u32) -> bool
        ensures { result ≡ known self.now.given self.now.latest number tick }
    {
        1 <= number && number <= self.given && tick <= self.latest
    }
}

fn hold_fits(hold: u16) -> bool
    ensures { result ≡ between 1 longest_hold hold }
{
    1 <= hold && hold <= Book::LONGEST_HOLD
}

fn empty(hold: u16) -> Book
    ensures { result ≡ empty_book hold }
{
    Book {
        hold,
        given: 0,
        latest: 0,
        remembered: [Crossing::NONE; State::MAX_HEADS],
        places: [Entry::FREE; Book::PLACES],
    }
}
