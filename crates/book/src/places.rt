// The places of a book: where a number stands, and whether it stands among some.
ghost use Rattle.std.specs.Prelude.{◌≡◌, ◌<◌, eqb, IfSome};
ghost use Rattle.std.specs.List.{list_any};
ghost use Rattle.book.specs.Limits.{all_places};
ghost use Rattle.book.specs.Book.{place_number, place_of};

use crate::{Book, Entry};

// The index of the place that holds a number. A free place has number 0, so that of 0 is the lowest free one.
pub fn find(es: &[Entry; Book::PLACES], number: u32) -> Option<usize>
    ensures place { place_number result ≡ place_of es.now number }
    ensures within { IfSome result (λ p. p < all_places) }
{
    es.iter().position(|e| e.number == number)
}

// Whether a number stands among some. It looks at all of them: a loop that may end early is not done several at a time.
pub fn stands(numbers: &[u32], number: u32) -> bool
    ensures { result ≡ list_any (λ a. eqb a number) numbers.now }
{
    numbers.iter().fold(false, |seen, &a| seen | (a == number))
}
