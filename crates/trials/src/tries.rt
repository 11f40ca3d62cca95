// What the lines of the sheet try of tables, states, steps, images and runs. Behind judge, read and write the second word's first letter
// says what of.
use crate::letters::{find, letter, number, place};
use crate::print::{answer, answered, field, record, text};
use crate::{Bench, print, records};
use rules::{State, Table};
use runs::Ran;
use words::{Refusal, Step};

// The longest image or room that is tried.
const ROOM: usize = 300;

// The bytes of the longest run that is given.
const MOST_BYTES: usize = 64;

impl Bench {
    // The state with another calendar.
    pub fn calendar(&self, line: &[u8]) {
        let u = State {
            calendar: records::calendar(line, 0),
            ..self.state
        };
        answer(u.check(self.table));
    }

    // The state with another head at a place.
    pub fn head(&self, line: &[u8]) {
        let mut u = self.state;
        u.heads[place(line, State::MAX_HEADS)] = records::head(line, 1);
        answer(u.check(self.table));
    }

    // A step as the enum and as its two bytes, or two bytes that name no step.
    pub fn judge(&self, line: &[u8]) {
        match letter(line, 6) {
            b'p' => self.pair(number(line, 0), number(line, 1), &self.state, b" kept"),
            b'a' => self.step(Step::Advance),
            b't' => self.step(Step::Timer(number(line, 0))),
            _ => self.step(Step::Hear(number(line, 0))),
        }
    }

    // A step, then the same as its two bytes, beside the state that the step came to.
    fn step(&self, x: Step) {
        let came = answered(
            judge::step(self.table, self.state, x),
            &self.state,
            b" kept",
        );
        text(b", pair");
        self.pair(x.kind(), x.head(), &came, b" alike");
    }

    fn pair(&self, kind: u8, i: u8, known: &State, word: &[u8]) {
        answered(judge::pair(self.table, self.state, kind, i), known, word);
    }

    // The first bytes of the table's or the state's image, with up to two bytes changed. Where there is no image, they are zero. What is read or
    // written is the sheet's own letter, judged in one place each.
    pub fn read(&self, line: &[u8]) {
        let what = letter(line, 5);
        let mut image = [0u8; ROOM];
        let _ = self.write_to(what, &mut image);
        change(&mut image, find(line, 1), number(line, 2));
        change(&mut image, find(line, 3), number(line, 4));
        if let Some(first) = image.get(..number::<u64>(line, 0) as usize) {
            self.read_first(what, first);
        }
    }

    fn read_first(&self, what: u8, first: &[u8]) {
        if what == b't' {
            answered(table_images::read(first), &Table::BLANK, b" blank");
        } else {
            answered(
                state_images::read(self.table, first),
                &State::blank(),
                b" blank",
            );
        }
    }

    // An image or a step list, in a room that holds aa before.
    pub fn write(&self, line: &[u8]) {
        let mut bytes = [0xaa; ROOM];
        if let Some(room) = bytes.get_mut(..number::<u64>(line, 0) as usize) {
            let w = self.write_to(letter(line, 6), room);
            print::written(w, room);
        }
    }

    fn write_to(&self, what: u8, room: &mut [u8]) -> Result<usize, Refusal> {
        match what {
            b't' => table_images::write(self.table, room),
            b's' => state_images::write(self.table, self.state, room),
            _ => runs::open_steps(self.table, self.state, room),
        }
    }

    // A run of the steps that a line gives: its numbers, up to the first that is no byte.
    pub fn given(&self, line: &[u8]) {
        let n = (0..MOST_BYTES)
            .take_while(|&k| matches!(find(line, k), Some(0..=255)))
            .count();
        let mut pairs = [0; MOST_BYTES];
        for (k, byte) in pairs[..n].iter_mut().enumerate() {
            *byte = number(line, k);
        }
        self.ran(runs::run_given(self.table, self.state, &pairs[..n]));
    }

    pub fn policy(&self, line: &[u8]) {
        let count = number::<u64>(line, 0) as usize;
        self.ran(runs::run_policy(self.table, self.state, count));
    }

    // What a run answered.
    fn ran(&self, r: Ran) {
        answer(r.verdict);
        field(b" accepted", r.accepted as u64);
        record(&r.state, &self.state, b" kept");
    }
}

// Changes the byte at a place, where a line names one of the image.
fn change(image: &mut [u8], at: Option<u64>, to: u8) {
    if let Some(at) = at
        && let Some(byte) = image.get_mut(at as usize)
    {
        *byte = to;
    }
}
