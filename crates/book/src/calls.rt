// What a tail, a new entry and a release do to a book.
ghost use Rattle.std.specs.Prelude.{◌≡◌, ◌≤◌};
ghost use Rattle.words.specs.Answer.{Answers};
ghost use Rattle.rules.specs.Limits.{max_heads};
ghost use Rattle.book.specs.Book.{last_crossing};
ghost use Rattle.book.specs.Calls.{is_tail, tailed, entry_refusal, entered, book_after, held_refusal, release_refusal, released, release_answer};

use crate::places::find;
use crate::{Book, Crossing, Entry};
use words::{Answer, Refusal};

// Heads are bounded in the clauses: a break may name any byte, and 17 refuses the others first.
impl Book {
    // Whether a break of a head at a tick is a tail of the head's last crossing.
    #[tactic(auto, unfolding(crate::specs::Calls::is_tail), using(crate::proofs::Rows::at_before))]
    pub fn is_tail(self, head: u8, clock: u32) -> bool
        requires { (1 ≤ head) × (head ≤ max_heads) × (((last_crossing self head).number ≡ 0 → ⊥) → (last_crossing self head).tick ≤ clock) }
        ensures { result ≡ is_tail self head clock }
    {
        let c = self.remembered[head as usize - 1];
        c.number != 0 && clock - c.tick < self.hold as u32
    }

    // The book after such a tail, counted in the entry that holds the crossing, and nowhere if that was released.
    #[tactic(auto, unfolding(crate::specs::Calls::tailed, crate::specs::Calls::counted, crate::specs::Calls::one_more, crate::specs::Rows::put), using(crate::proofs::Rows::at_before))]
    pub fn tailed(mut self, head: u8, clock: u32) -> Book
        requires { (1 ≤ head) × (head ≤ max_heads) }
        ensures { result ≡ tailed self head clock }
    {
        let c = self.remembered[head as usize - 1];
        if let Some(p) = find(&self.places, c.number) {
            let tails = self.places[p].tails.saturating_add(1);
            self.places[p].tails = tails.min(Book::MOST_TAILS);
        }
        self.latest = clock;
        self
    }

    // The book with a new entry for a head's crossing at a tick, in the lowest free place; or 18 or 20.
    #[tactic(auto, unfolding(crate::specs::Calls::entry_refusal, crate::specs::Calls::place_refusal, crate::specs::Calls::number_refusal, crate::specs::Calls::entered, crate::specs::Calls::book_after, crate::specs::Rows::put, words::specs::Refusal::first_refusal, words::specs::Refusal::unless), using(crate::proofs::Rows::put_before))]
    pub fn enter(mut self, head: u8, tick: u32, clock: u32) -> Answer<Book>
        requires { (1 ≤ head) × (head ≤ max_heads) }
        ensures { Answers result (entry_refusal self) (book_after self (entered self head tick clock) (entry_refusal self)) }
    {
        let Some(p) = find(&self.places, 0) else {
            return Err(Refusal::NoFreePlace.with(self));
        };
        if self.given == Book::LAST_NUMBER {
            return Err(Refusal::NoNumberLeft.with(self));
        }
        let number = self.given + 1;
        self.given = number;
        self.latest = clock;
        self.remembered[head as usize - 1] = Crossing { number, tick };
        self.places[p] = Entry {
            number,
            tick,
            head,
            tails: 0,
        };
        Ok(self)
    }

    // Frees the place of an entry, by its number; or 15, 25 or 19.
    #[tactic(auto, unfolding(crate::specs::Calls::release_answer, crate::specs::Calls::book_after), using(crate::proofs::Filing::release_book, crate::proofs::Filing::release_own, words::proofs::Order::number_some))]
    pub fn release(self, number: u32) -> Answer<Book>
        ensures { Answers result (release_refusal self number) (release_answer self number) }
    {
        match self.check() {
            Ok(()) => self.release_fit(number),
            Err(why) => Err(why.with(self)),
        }
    }

    // The same of a book that is known to fit. Its last number stays the last, whatever is released: no number is given again.
    #[tactic(auto, unfolding(crate::specs::Calls::held_refusal, crate::specs::Calls::released, crate::specs::Calls::book_after, crate::specs::Rows::put, words::specs::Refusal::unless))]
    fn release_fit(mut self, number: u32) -> Answer<Book>
        ensures { Answers result (held_refusal self number) (book_after self (released self number) (held_refusal self number)) }
    {
        match find(&self.places, number) {
            Some(p) if number != 0 => {
                self.places[p] = Entry::FREE;
                Ok(self)
            }
            _ => Err(Refusal::NoSuchEntry.with(self)),
        }
    }
}
