// A table as bytes, and back. The image and what reads as one are definitions in specs/, in document 01's own order; the code here
// reads and writes it, and proofs/ shows that nothing is lost and that nothing else is taken for an image. It uses octets, words and
// rules.
#![tactic(auto)]

ghost use Rattle.std.specs.Prelude.{◌≡◌, ◌≤◌, length};
ghost use Rattle.words.specs.Answer.{Answers};
ghost use Rattle.rules.specs.Limits.{max_heads};
ghost use Rattle.rules.specs.Room.{Wrote};
ghost use Rattle.rules.specs.Table.{table_refusal};
ghost use Rattle.octets.specs.Bytes.{number_at};
ghost use Rattle.octets.specs.Room.{stored};
ghost use Rattle.octets.specs.Fields.{in_bytes, joined, places, Reads};
ghost use Rattle.table_images.specs.TableImage.{table_front, table_length, table_fields, wake_fields, wake_place, table_in, read_table_refusal, read_table, table_image};

use octets::{COUNT_AT, bits8, bits16, bits32, marked, store, store_opening};
use rules::{State, Table};
use words::{Answer, Refusal};

// The letters HTB as one number, least byte first. A constant calls no function, so the sum is written out.
const MARK: u64 = b'H' as u64 + 256 * (b'T' as u64 + 256 * (b'B' as u64));

// Where S and P stand.
const SLOT_AT: usize = 6;

const PROPAGATION_AT: usize = 8;

// The length of what stands before the wakes, and of a wake.
pub const FRONT: usize = 10;

pub const WAKE: usize = 4;

// Writes a table's image into the room: refused with 3 or 12, or the number of bytes. A state's writer has this shape too; a shared
// one takes a trait of both records, of which each has two functions that say what they leave of the room alone, for these few lines.
pub fn write(t: Table, room: &mut [u8]) -> Result<usize, Refusal>
    ensures { Wrote result (table_refusal t) (table_image t) room.old room.new }
{
    t.check()?;
    let need = FRONT + WAKE * t.n as usize;
    if room.len() < need {
        return Err(Refusal::ShortRoom);
    }
    store_front(room, t);
    store_wakes(room, t);
    Ok(need)
}

#[tactic(auto, unfolding(octets::specs::Room::stored, octets::specs::Fields::in_bytes, octets::specs::Bytes::bytes_of))]
fn store_front(room: &mut [u8], t: Table)
    requires { table_front ≤ length room.old }
    ensures { room.new ≡ stored room.old 0 (in_bytes (table_fields t)) }
{
    store_opening(room, MARK, t.n);
    store(room, SLOT_AT, 2, t.s as u64);
    store(room, PROPAGATION_AT, 2, t.p as u64);
}

fn store_wakes(room: &mut [u8], t: Table)
    requires { (t.n ≤ max_heads) × (table_length t.n ≤ length room.old) }
    ensures { room.new ≡ stored room.old table_front (joined t.n (λ i. in_bytes (wake_fields t i))) }
{
    for (k, &wake) in t.wakes[..t.n as usize].iter().enumerate() {
        store(room, FRONT + WAKE * k, 4, wake as u64);
    }
}

// Reads a table's image: the table, or 1, 2 or 3 with an all-zero record.
pub fn read(image: &[u8]) -> Answer<Table>
    ensures { Answers result (read_table_refusal image.now) (read_table image.now) }
{
    take(image).map_err(|why| why.with(Table::BLANK))
}

// The table whose numbers stand in the image, if they make one.
#[tactic(auto, unfolding(crate::specs::TableImage::read_table_refusal, crate::specs::TableImage::table_in, words::specs::Refusal::first_refusal, words::specs::Refusal::unless))]
fn take(image: &[u8]) -> Result<Table, Refusal>
    ensures { Reads result (read_table_refusal image.now) (table_in image.now) }
{
    if image.len() < FRONT {
        return Err(Refusal::TableLength);
    }
    if !marked(image, MARK) {
        return Err(Refusal::TableMark);
    }
    let n = bits8(image, COUNT_AT);
    if n < 1 || State::MAX_HEADS < n as usize {
        return Err(Refusal::TableRange);
    }
    if image.len() != FRONT + WAKE * n as usize {
        return Err(Refusal::TableLength);
    }
    let table = Table {
        n,
        s: bits16(image, SLOT_AT),
        p: bits16(image, PROPAGATION_AT),
        wakes: take_wakes(image, n as usize),
    };
    table.check()?;
    Ok(table)
}

// The wakes of n heads; the places above them are zero.
fn take_wakes(image: &[u8], n: usize) -> [u32; State::MAX_HEADS]
    requires { (n ≤ max_heads) × (table_length n ≤ length image.now) }
    ensures { result ≡ places 0 (λ i. number_at image.now (wake_place i) 4) n }
{
    let mut wakes = [0; State::MAX_HEADS];
    for (k, wake) in wakes[..n].iter_mut().enumerate() {
        *wake = bits32(image, FRONT + WAKE * k);
    }
    wakes
}
