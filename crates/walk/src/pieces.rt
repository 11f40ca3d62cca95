// The listing's bytes, piece by piece.
ghost use Rattle.std.specs.Prelude.{◌≡◌, None, IfSome, ◌++◌, ◌+◌, ◌≤◌, length, take};
ghost use Rattle.words.specs.Refusal.{verdict_number};
ghost use Rattle.lines.specs.Line.{end_line, longest_line};
ghost use Rattle.walk.specs.Pieces.{Stands, rest, left, Onward};

use crate::{Piece, Place};
use words::{Refusal, Step, Verdict, verdict_number};

// Fills the room with the lines from a place on, as many as it takes whole: the END line, or a step's line at least. The pairs are taken one by
// one, for a place keeps what follows, and a byte left over is no step (7).
pub fn fill<'a>(room: &mut [u8], from: Place<'a>) -> Piece<'a>
    requires { (longest_line ≤ length room.old) × Stands from }
    ensures { (result.bytes ≤ length room.new) × (take result.bytes room.new ++ left result.next ≡ rest from.entry) × Onward from.entry result.next }
{
    if from.verdict.is_err() {
        return last(room, 0, from, from.verdict);
    }
    let mut here = from;
    let mut used = 0;
    while let [kind, head, pairs @ ..] = here.pairs {
        let x = Step::read(*kind, *head);
        let state = match judge::step(here.table, here.state, x) {
            Ok(state) => state,
            Err(refused) => return last(room, used, here, Err(refused.why)),
        };
        let Some(put) = lines::put_step(room, used, state, x) else {
            return Piece {
                bytes: used,
                next: Some(here),
            };
        };
        used += put;
        here = Place {
            state,
            accepted: here.accepted + 1,
            pairs,
            ..here
        };
    }
    if here.pairs.is_empty() {
        last(room, used, here, Ok(()))
    } else {
        last(room, used, here, Err(Refusal::NoSuchStep))
    }
}

// The END line behind the bytes that are used already; where the room does not take it, it is left for the next piece.
fn last<'a>(room: &mut [u8], used: usize, place: Place<'a>, verdict: Verdict) -> Piece<'a>
    requires used { used ≤ length room.old }
    requires last { rest place ≡ end_line place.accepted (verdict_number verdict) }
    ensures bytes { result.bytes ≤ length room.new }
    ensures rest { take result.bytes room.new ++ left result.next ≡ take used room.old ++ rest place.entry }
    ensures next { IfSome result.next (λ p. p ≡ place.entry) }
    ensures ends { used + longest_line ≤ length room.old → result.next ≡ None }
{
    match lines::put_end(room, used, place.accepted, verdict_number(verdict)) {
        Some(put) => Piece {
            bytes: used + put,
            next: None,
        },
        None => Piece {
            bytes: used,
            next: Some(place),
        },
    }
}
