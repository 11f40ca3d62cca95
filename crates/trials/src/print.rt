// What came, on standard output. Rattle carries every label of a function through its proof, so labels are short and few.
use rules::{Calendar, Head, State, Table};
use words::{Answer, Refusal, Refused, Verdict, verdict_number};

// Standard output, by its number: std's printing would assume one C function more.
const STDOUT: i32 = 1;

pub fn text(bytes: &[u8]) {
    io::write_all(STDOUT, bytes);
}

fn number(x: u64) {
    text(b" ");
    io::print_decimal(STDOUT, x);
}

pub fn field(name: &[u8], x: u64) {
    text(name);
    number(x);
}

// The number that came, behind what was tried.
pub fn answer(v: Verdict) {
    field(b":", verdict_number(v) as u64);
}

// A record that can be told in numbers.
pub trait Told: PartialEq + Copy {
    fn tell(&self);
}

// A record that came, or a word for it where it is a known one: the given one, the all-zero one, or the one of the same step.
pub fn record<T: Told>(came: &T, known: &T, word: &[u8]) {
    if came == known {
        text(word);
    } else {
        came.tell();
    }
}

// What a call answered: the number, then the record, which is handed on. A record may be a whole book, so it is told where it lies.
pub fn answered<T: Told>(came: Answer<T>, known: &T, word: &[u8]) -> T {
    match came {
        Ok(x) => {
            answer(Ok(()));
            record(&x, known, word);
            x
        }
        Err(Refused { why, back }) => {
            answer(Err(why));
            record(&back, known, word);
            back
        }
    }
}

// A table that was read, with its first two wakes.
impl Told for Table {
    fn tell(&self) {
        field(b" N", self.n as u64);
        field(b" S", self.s as u64);
        field(b" P", self.p as u64);
        field(b" wakes", self.wakes[0] as u64);
        number(self.wakes[1] as u64);
    }
}

impl Told for State {
    fn tell(&self) {
        field(b" clock", self.clock as u64);
        calendar(self.calendar);
        heads(self.n as usize, &self.heads);
    }
}

fn calendar(c: Calendar) {
    field(b" calendar", c.hearers);
    number(c.kind as u64);
    number(c.origin as u64);
    number(c.sent as u64);
    number(c.delivery as u64);
    field(b" waiting", c.waiting() as u64);
}

// The first three heads in use, and the last: all heads of a small state.
fn heads(n: usize, places: &[Head]) {
    for (k, &h) in places.iter().enumerate().take(n) {
        if k < 3 || k + 1 == n {
            field(b" head", k as u64 + 1);
            number(h.phase.number() as u64);
            number(h.phase.slot() as u64);
            number(h.timeout as u64);
        }
    }
}

// What a writer answered, with its room.
pub fn written(w: Result<usize, Refusal>, bytes: &[u8]) {
    answer(w.map(|_| ()));
    field(b" bytes", w.unwrap_or(0) as u64);
    room(bytes);
}

// How many bytes of a room are told: the longest step list that the sheet tries.
const TOLD: usize = 128;

// A room's first bytes, or that it holds aa throughout, as it did before.
fn room(room: &[u8]) {
    if room.iter().all(|&b| b == 0xaa) {
        text(b" untouched");
        return;
    }
    text(b" room");
    for &b in room.iter().take(TOLD) {
        text(b" ");
        io::print_hex(STDOUT, b as u64, 2);
    }
}
