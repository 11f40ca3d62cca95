// The start of a listing: the table part of the input, and the place before the first step.
ghost use Rattle.std.specs.Prelude.{◌≡◌, ◌+◌, ◌≤◌, length};
ghost use Rattle.words.specs.Refusal.{verdict_number};
ghost use Rattle.table_images.specs.TableImage.{read_table_refusal, read_table};
ghost use Rattle.walk.specs.Listing.{asked_length, table_part, listing};
ghost use Rattle.walk.specs.Pieces.{rest};

use crate::Place;
use octets::COUNT_AT;
use rules::{State, Table};
use table_images::{FRONT, WAKE};
use words::Verdict;

// The place before the first step, in the fresh state; after a refused table only the END line is left.
pub fn start(input: &[u8]) -> Place<'_>
    ensures rest { rest result ≡ listing input.now }
    ensures steps { result.accepted + length result.pairs.now ≤ length input.now }
{
    let (image, pairs) = input.split_at(table_part(input));
    let (table, verdict) = read(image);
    Place {
        table,
        verdict,
        state: State::fresh_fit(table),
        accepted: 0,
        pairs,
    }
}

// The table that an image is read as, and the verdict on it: both stand in a place, for a refused table's place is one at which END is left.
fn read(image: &[u8]) -> (Table, Verdict)
    ensures table { result.0 ≡ read_table image.now }
    ensures verdict { verdict_number result.1 ≡ read_table_refusal image.now }
{
    match table_images::read(image) {
        Ok(table) => (table, Ok(())),
        Err(refused) => (refused.back, Err(refused.why)),
    }
}

// How many bytes of the input are its table part.
#[tactic(auto, unfolding(crate::specs::Listing::table_part))]
fn table_part(input: &[u8]) -> usize
    ensures value { result ≡ table_part input.now }
    ensures within { result ≤ length input.now }
{
    asked_length(input).min(input.len())
}

// The length of a table image with the head count that stands in the input, or of its front where that is no head count.
#[tactic(auto, unfolding(crate::specs::Listing::asked_length))]
fn asked_length(input: &[u8]) -> usize
    ensures { result ≡ asked_length input.now }
{
    match input.get(COUNT_AT) {
        Some(&n) if 1 <= n && n as usize <= State::MAX_HEADS => FRONT + WAKE * n as usize,
        _ => FRONT,
    }
}
