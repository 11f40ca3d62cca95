// The lines of the walk listing of document 01, in bytes: a line for an accepted step and the END line, put into room that the
// caller lends, whole or not at all. What a line holds is said in specs/, byte by byte. It uses the types and definitions of
// words and rules, and no input or output.
#![tactic(auto)]

ghost use Rattle.std.specs.Prelude.{◌≡◌, [], ◌∷◌, ◌++◌, ◌+◌, ◌≤◌, ◌<◌, length};
ghost use Rattle.rules.specs.State.{head_of};
ghost use Rattle.lines.specs.Decimal.{decimal};
ghost use Rattle.lines.specs.Line.{letter_of, step_line, end_line, longest_line};
ghost use Rattle.lines.specs.Room.{over, written, room_after};

use rules::{Head, State};
use words::Step;

const SPACE: u8 = b' ';

const LF: u8 = b'\n';

// The line of an accepted step x that led to the state s, put into the room from position at on. Answers how many bytes it put, or
// None with the room as it was where the whole line does not fit; it fits into room for the longest line.
pub fn put_step(room: &mut [u8], at: usize, s: State, x: Step) -> Option<usize>
    ensures { (result ≡ written (length room.old) at (step_line s x)) × (room.new ≡ room_after room.old at (step_line s x)) × (length (step_line s x) ≤ longest_line) }
{
    let head = x.head();
    let h = head_at(s, head);
    let i = head as u32;
    let phase = h.phase.number() as u32;
    let slot = h.phase.slot() as u32;
    let need = width(s.clock) + width(i) + width(phase) + width(slot) + width(h.timeout) + 7;
    if room.len().saturating_sub(at) < need {
        return None;
    }
    let mut pen = Pen { room, at };
    pen.number(s.clock, SPACE);
    pen.text(&[letter(x), SPACE]);
    pen.number(i, SPACE);
    pen.number(phase, SPACE);
    pen.number(slot, SPACE);
    pen.number(h.timeout, LF);
    Some(need)
}

// The last line, put and answered in the same way. The refusal is its number, any byte or 0 for none, as the line has it
// (`put_end_one` speaks of them all).
pub fn put_end(room: &mut [u8], at: usize, accepted: u32, refusal: u8) -> Option<usize>
    ensures { (result ≡ written (length room.old) at (end_line accepted refusal)) × (room.new ≡ room_after room.old at (end_line accepted refusal)) × (length (end_line accepted refusal) ≤ longest_line) }
{
    let number = refusal as u32;
    let need = width(accepted) + width(number) + 6;
    if room.len().saturating_sub(at) < need {
        return None;
    }
    let mut pen = Pen { room, at };
    pen.text(b"END ");
    pen.number(accepted, SPACE);
    pen.number(number, LF);
    Some(need)
}

// Room that is being written, and where its next byte goes.
#[derive(Drop)]
struct Pen<'a> {
    room: &'a mut [u8],
    at: usize,
}

impl Pen<'_> {
    fn text(&mut self, bytes: &[u8])
        requires { self.old.at + length bytes.now ≤ length self.old.room.now }
        ensures at { self.new.at ≡ self.old.at + length bytes.now }
        ensures same_reference { self.new.room.ghost_name ≡ self.old.room.ghost_name }
        ensures size { length self.new.room.now ≡ length self.old.room.now }
        ensures room { self.new.room.now ≡ over self.old.room.now self.old.at bytes.now }
    {
        let end = self.at + bytes.len();
        self.room[self.at..end].copy_from_slice(bytes);
        self.at = end;
    }

    // A number in decimal and one byte after it.
    fn number(&mut self, n: u32, after: u8)
        requires { self.old.at + length (decimal n) < length self.old.room.now }
        ensures at { self.new.at ≡ self.old.at + length (decimal n) + 1 }
        ensures same_reference { self.new.room.ghost_name ≡ self.old.room.ghost_name }
        ensures size { length self.new.room.now ≡ length self.old.room.now }
        ensures room { self.new.room.now ≡ over self.old.room.now self.old.at (decimal n ++ (after ∷ [])) }
    {
        let end = self.at + width(n);
        self.room[end] = after;
        let mut rest = n;
        for k in (self.at..end).rev() {
            self.room[k] = (rest % 10) as u8 + b'0';
            rest /= 10;
        }
        self.at = end + 1;
    }
}

// How many digits n has, ten at most.
#[tactic(auto, using(crate::proofs::Numbers::width_is))]
fn width(n: u32) -> usize
    ensures { (result ≡ length (decimal n)) × (result ≤ 10) }
{
    n.checked_ilog10().unwrap_or(0) as usize + 1
}

// The head place of a number, or a place that is zero where there is none.
#[tactic(auto, unfolding(rules::specs::State::head_of), using(rules::proofs::Checks::head_at))]
fn head_at(s: State, i: u8) -> Head
    ensures { result ≡ head_of s.heads i }
{
    if i == 0 {
        Head::ZERO
    } else {
        s.heads.get(i as usize - 1).copied().unwrap_or(Head::ZERO)
    }
}

fn letter(x: Step) -> u8
    ensures { result ≡ letter_of x }
{
    match x {
        Step::Advance => b'A',
        Step::Timer(_) => b'T',
        Step::Hear(_) => b'H',
    }
}
