// The program `walk` of document 01: a table image and step pairs on standard input, the listing on standard output. What a
// listing is, is said in specs/; opening reads the input's table part, pieces makes the listing's bytes, and only this file reads
// and writes. It judges nothing itself: it uses words, rules, judge, table_images, octets and lines, hearers in its proofs, and io
// for the two channels.
#![tactic(auto)]

mod opening;
mod pieces;

ghost use Rattle.std.specs.Prelude.{◌≤◌, length};
ghost use Rattle.lines.specs.Line.{longest_line};
ghost use Rattle.walk.specs.Listing.{input_most};

use opening::start;
use pieces::fill;
use rules::{State, Table};
use words::Verdict;

// The two channels, by their numbers, for `io`: with std's `Read` a loop of our own would fill the buffer (`read_to_end` takes a Vec, and here
// is no heap), and its writer assumes one C function more.
const STDIN: i32 = 0;

const STDOUT: i32 = 1;

// Where a listing stands, before a step or its END line: the table and the verdict on it, the state, the steps accepted so far, and
// the pairs that follow. The rest of the listing follows from it.
#[derive(Clone, Copy)]
pub struct Place<'a> {
    pub table: Table,
    pub verdict: Verdict,
    pub state: State,
    pub accepted: u32,
    pub pairs: &'a [u8],
}

// A piece of the listing: how many bytes it has in the room, and the place after it, None where it holds the END line.
#[derive(Clone, Copy)]
pub struct Piece<'a> {
    pub bytes: usize,
    pub next: Option<Place<'a>>,
}

fn main() {
    let mut input = io::large_buffer();
    let n = io::read_full(STDIN, &mut input);
    let mut room = io::large_buffer();
    print(&input[..n], &mut room);
}

// Writes the listing of an input, by pieces that the room holds. A write that fails ends it.
fn print(input: &[u8], room: &mut [u8])
    requires { (length input.now ≤ input_most) × (longest_line ≤ length room.old) }
{
    let mut next = Some(start(input));
    while let Some(here) = next {
        let piece = fill(room, here);
        if !io::write_all(STDOUT, &room[..piece.bytes]) {
            return;
        }
        next = piece.next;
    }
}
