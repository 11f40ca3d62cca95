// The rest of document 01's bench sheet, and a morning of document 02's crossing book, run. Standard input is the sheet with its answers
// left out (the file stdin beside src/), and this program prints it with the answers filled in; the expected sheet, worked out by hand
// from the documents, is the file stdout, to which a check holds what is printed. A line's first letter says what is tried, its numbers
// what with; any other line is only printed. It tries what rules, judge, the two crates of images, runs, book and single_beam offer to
// everyone and judges nothing itself; words has the steps and the verdicts, io is for the two channels.
#![tactic(auto)]

mod books;
mod letters;
mod pages;
mod print;
mod records;
mod tries;

use book::Book;
use letters::letter;
use print::{answer, answered, text};
use rules::{State, Table};

// Standard input, by its number.
const STDIN: i32 = 0;

fn main() {
    let mut input = io::large_buffer();
    let n = io::read_full(STDIN, &mut input);
    sheet(&input[..n]);
}

// Every line of the input in turn.
fn sheet(input: &[u8]) {
    let mut bench = Bench {
        table: Table::BLANK,
        state: State::blank(),
        book: books::BLANK,
    };
    for line in input.split_inclusive(|&b| b == b'\n') {
        let line = line.strip_suffix(b"\n").unwrap_or(line);
        text(line);
        bench.tried(line);
        text(b"\n");
    }
}

// What the lines below start from.
#[derive(Clone, Copy)]
struct Bench {
    table: Table,
    state: State,
    book: Book,
}

impl Bench {
    // What came of a line. Some kinds of line set the table, the state or the book. Here and below a `match` over a letter of the line says
    // what is tried, as README's table has it.
    fn tried(&mut self, line: &[u8]) {
        match letter(line, 0) {
            b't' => self.lay(records::table(line)),
            b'a' => self.lay(records::alter_wake(self.table, line)),
            b's' => {
                self.state = records::state(line);
                answer(self.state.check(self.table));
            }
            b'f' => self.state = answered(State::fresh(self.table), &State::blank(), b" blank"),
            b'b' => self.book = self.next_book(line),
            b'c' => self.calendar(line),
            b'h' => self.head(line),
            b'j' => self.judge(line),
            b'r' => self.read(line),
            b'w' => self.write(line),
            b'g' => self.given(line),
            b'p' => self.policy(line),
            _ => {}
        }
    }

    // The table that the lines below use, and what its check says.
    fn lay(&mut self, table: Table) {
        self.table = table;
        answer(table.check());
    }
}
