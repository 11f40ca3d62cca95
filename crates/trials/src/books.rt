// What the lines of the sheet try of a crossing book. Behind book the second word's first letter says what is tried. Each function tells
// what came and answers the book that the lines below start from.
use crate::letters::{find, letter, number, place};
use crate::print::{answer, answered};
use crate::{Bench, pages};
use book::{Book, Crossing, Entry};
use rules::State;
use words::Answer;

// The all-zero book, written out here: the sheet judges what Book::new answers and takes nothing from it.
pub const BLANK: Book = Book {
    hold: 0,
    given: 0,
    latest: 0,
    remembered: [Crossing { number: 0, tick: 0 }; State::MAX_HEADS],
    places: [Entry {
        number: 0,
        tick: 0,
        head: 0,
        tails: 0,
    }; Book::PLACES],
};

impl Bench {
    pub fn next_book(&self, line: &[u8]) -> Book {
        let b = self.book;
        match letter(line, 5) {
            b'n' => answered(Book::new(number(line, 0)), &BLANK, b" blank"),
            b'b' => self.broken(line),
            b'r' => answered(b.release(number(line, 0)), &b, b" kept"),
            _ => forged(b, line),
        }
    }

    // Breaks of a head, and where they are accepted its last crossing.
    fn broken(&self, line: &[u8]) -> Book {
        let came = self.breaks(line);
        let after = answered(came, &self.book, b" kept");
        if came.is_ok() {
            pages::crossing(&after, place(line, State::MAX_HEADS));
        }
        after
    }

    // So many breaks of a head, some ticks apart, one where the line names no more than head and clock. A refused one is the last.
    fn breaks(&self, line: &[u8]) -> Answer<Book> {
        let times = find(line, 2).unwrap_or(1);
        let mut clock: u32 = number(line, 1);
        let mut after = self.break_at(self.book, line, clock)?;
        for _ in 1..times {
            clock = clock.wrapping_add(number(line, 3));
            after = self.break_at(after, line, clock)?;
        }
        Ok(after)
    }

    // One break of a book, with the state's clock set.
    fn break_at(&self, b: Book, line: &[u8], clock: u32) -> Answer<Book> {
        let s = State {
            clock,
            ..self.state
        };
        single_beam::break_of(self.table, s, b, number(line, 0))
    }
}

// The book with what a line writes over, or as it is where the line only looks, and what its check says of it.
fn forged(b: Book, line: &[u8]) -> Book {
    let f = forge(b, line);
    answer(f.check());
    match letter(line, 5) {
        b'e' => pages::entry(&f, place(line, Book::PLACES)),
        b'c' => pages::crossing(&f, place(line, State::MAX_HEADS)),
        _ => {}
    }
    f
}

fn forge(b: Book, line: &[u8]) -> Book {
    let mut f = b;
    match letter(line, 5) {
        b'h' => f.hold = number(line, 0),
        b'g' => f.given = number(line, 0),
        b'l' => f.latest = number(line, 0),
        b'p' => f.places[place(line, Book::PLACES)] = entry(line),
        b'm' => f.remembered[place(line, State::MAX_HEADS)] = crossing(line),
        _ => {}
    }
    f
}

// The entry of a line behind its place: number, tick, head, tails.
fn entry(line: &[u8]) -> Entry {
    Entry {
        number: number(line, 1),
        tick: number(line, 2),
        head: number(line, 3),
        tails: number(line, 4),
    }
}

// The crossing of a line behind its head: number, tick.
fn crossing(line: &[u8]) -> Crossing {
    Crossing {
        number: number(line, 1),
        tick: number(line, 2),
    }
}
