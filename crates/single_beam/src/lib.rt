// The single-beam post: chest and tail break the same light, so a break soon after a crossing is filed in that crossing's entry instead
// of overwriting its time. A break is judged against a table, a state and a book; the state is read and never changed. It uses words,
// rules for the state check, and book for all that does not depend on the kind of post.
#![tactic(auto)]

ghost use Rattle.std.specs.Prelude.{◌≡◌, true, ◌≤◌};
ghost use Rattle.words.specs.Refusal.{verdict_number};
ghost use Rattle.words.specs.Answer.{Answers};
ghost use Rattle.rules.specs.Limits.{max_heads};
ghost use Rattle.book.specs.Book.{book_fits};
ghost use Rattle.book.specs.Calls.{book_after};
ghost use Rattle.single_beam.specs.Break.{new_refusal, may_break_refusal, crossed, break_refusal, break_answer};

use book::Book;
use rules::{State, Table};
use words::{Answer, Verdict};

// A break of head i at the state's clock, in any book: a tail of the head's last crossing, or a new entry.
#[tactic(auto, unfolding(crate::specs::Break::break_answer, book::specs::Calls::book_after, words::specs::Refusal::first_refusal), using(crate::proofs::Laws::break_row, crate::proofs::Laws::may_break, words::proofs::Order::number_some))]
pub fn break_of(t: Table, s: State, b: Book, i: u8) -> Answer<Book>
    ensures { Answers result (break_refusal t s b i) (break_answer t s b i) }
{
    match may_break(t, s, b, i) {
        Ok(()) => cross(b, i, s.clock),
        Err(why) => Err(why.with(b)),
    }
}

// What refuses a break whether it is a tail or not: table and state, then the book, then clock and head.
#[tactic(auto, unfolding(crate::specs::Break::may_break_refusal, words::specs::Refusal::first_refusal), using(crate::proofs::Laws::heads_within, words::proofs::Order::number_some))]
fn may_break(t: Table, s: State, b: Book, i: u8) -> Verdict
    ensures { verdict_number result ≡ may_break_refusal t s b i }
{
    s.check(t)?;
    b.check()?;
    b.admits(t, s, i)
}

// A break that the book admits.
#[tactic(auto, unfolding(crate::specs::Break::new_refusal, crate::specs::Break::crossed, book::specs::Calls::book_after), using(book::proofs::Rules::remembered_past))]
fn cross(b: Book, i: u8, clock: u32) -> Answer<Book>
    requires { (book_fits b ≡ true) × (b.latest ≤ clock) × (1 ≤ i) × (i ≤ max_heads) }
    ensures { Answers result (new_refusal b i clock) (book_after b (crossed b i clock) (new_refusal b i clock)) }
{
    if b.is_tail(i, clock) {
        Ok(b.tailed(i, clock))
    } else {
        b.enter(i, clock, clock)
    }
}
