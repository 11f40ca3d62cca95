// A state as bytes, and back, against its table. The image and what reads as one are definitions in specs/, in document 01's own
// order; the code here first takes the fields and then has the state rules tested, and proofs/ shows that nothing is lost and that
// nothing else is taken for an image. It uses octets, words and rules; its proofs use hearers.
#![tactic(auto)]

ghost use Rattle.std.specs.Prelude.{◌≡◌, ◌+◌, ◌≤◌, length, true};
ghost use Rattle.words.specs.Answer.{Answers};
ghost use Rattle.rules.specs.Each.{every};
ghost use Rattle.rules.specs.Limits.{max_heads};
ghost use Rattle.rules.specs.State.{no_head, head_of};
ghost use Rattle.rules.specs.Room.{Wrote};
ghost use Rattle.rules.specs.Judge.{record_refusal};
ghost use Rattle.rules.specs.Table.{table_fits};
ghost use Rattle.octets.specs.Room.{stored};
ghost use Rattle.octets.specs.Fields.{in_bytes, joined, places, Reads};
ghost use Rattle.state_images.specs.StateImage.{hearers_place, state_front, head_length, state_length, calendar_fields, state_fields, head_fields, state_image, head_place, phase_from, phase_known, head_at, known_at, calendar_in, state_in, take_refusal, read_state_refusal, read_state, Known};

use octets::{COUNT_AT, bits8, bits32, marked, number, store, store_opening};
use rules::{Calendar, Head, Phase, State, Table};
use words::{Answer, Refusal};

// The letters HST as one number, least byte first, as in table_images.
const MARK: u64 = b'H' as u64 + 256 * (b'S' as u64 + 256 * (b'T' as u64));

// Where the clock and the calendar's fields stand.
const CLOCK_AT: usize = 6;

const HEARERS_AT: usize = 10;

const KIND_AT: usize = 18;

const ORIGIN_AT: usize = 19;

const SENT_AT: usize = 20;

const DELIVERY_AT: usize = 24;

// The length of what stands before the heads, and of a head.
const FRONT: usize = 28;

const HEAD: usize = 6;

// Writes a state's image into the room: refused with 3, 6 or 12, or the number of bytes.
pub fn write(t: Table, s: State, room: &mut [u8]) -> Result<usize, Refusal>
    ensures { Wrote result (record_refusal t s) (state_image s) room.old room.new }
{
    s.check(t)?;
    write_fit(s, room)
}

// The same for a state that is known to fit: only the room can be too short.
pub fn write_fit(s: State, room: &mut [u8]) -> Result<usize, Refusal>
    requires { s.n ≤ max_heads }
    ensures { Wrote result 0 (state_image s) room.old room.new }
{
    let need = FRONT + HEAD * s.n as usize;
    if room.len() < need {
        return Err(Refusal::ShortRoom);
    }
    store_front(room, s);
    store_heads(room, s);
    Ok(need)
}

#[tactic(auto, unfolding(octets::specs::Room::stored, octets::specs::Fields::in_bytes, octets::specs::Bytes::bytes_of))]
fn store_front(room: &mut [u8], s: State)
    requires { state_front ≤ length room.old }
    ensures { room.new ≡ stored room.old 0 (in_bytes (state_fields s)) }
{
    store_opening(room, MARK, s.n);
    store(room, CLOCK_AT, 4, s.clock as u64);
    store_calendar(room, s.calendar);
}

#[tactic(auto, unfolding(octets::specs::Room::stored, octets::specs::Fields::in_bytes, octets::specs::Bytes::bytes_of))]
fn store_calendar(room: &mut [u8], c: Calendar)
    requires { state_front ≤ length room.old }
    ensures { room.new ≡ stored room.old hearers_place (in_bytes (calendar_fields c)) }
{
    store(room, HEARERS_AT, 8, c.hearers);
    store(room, KIND_AT, 1, c.kind as u64);
    store(room, ORIGIN_AT, 1, c.origin as u64);
    store(room, SENT_AT, 4, c.sent as u64);
    store(room, DELIVERY_AT, 4, c.delivery as u64);
}

fn store_heads(room: &mut [u8], s: State)
    requires { (s.n ≤ max_heads) × (state_length s.n ≤ length room.old) }
    ensures { room.new ≡ stored room.old state_front (joined s.n (λ i. in_bytes (head_fields (head_of s.heads i)))) }
{
    for (k, &head) in s.heads[..s.n as usize].iter().enumerate() {
        store_head(room, FRONT + HEAD * k, head);
    }
}

#[tactic(auto, unfolding(octets::specs::Room::stored, octets::specs::Fields::in_bytes, octets::specs::Bytes::bytes_of))]
fn store_head(room: &mut [u8], at: usize, h: Head)
    requires { at + head_length ≤ length room.old }
    ensures { room.new ≡ stored room.old at (in_bytes (head_fields h)) }
{
    store(room, at, 1, h.phase.number() as u64);
    store(room, at + 1, 1, h.phase.slot() as u64);
    store(room, at + 2, 4, h.timeout as u64);
}

// Reads a state's image against a table: the state, or 3, 4, 5 or 6 with an all-zero record.
pub fn read(t: Table, image: &[u8]) -> Answer<State>
    ensures { Answers result (read_state_refusal t image.now) (read_state t image.now) }
{
    match t.check() {
        Ok(()) => read_fit(t, image),
        Err(_) => Err(Refusal::TableRange.with(State::blank())),
    }
}

// The same against a table that is known to fit: a fact about this one argument, which is handed on as it is.
pub fn read_fit(t: Table, image: &[u8]) -> Answer<State>
    requires { table_fits t ≡ true }
    ensures { Answers result (read_state_refusal t image.now) (read_state t image.now) }
{
    take_fit(t, image).map_err(|why| why.with(State::blank()))
}

// The state whose fields stand in the image, if it fits the table.
#[tactic(auto, unfolding(crate::specs::StateImage::read_state_refusal, rules::specs::State::state_refusal, rules::specs::Table::table_refusal, words::specs::Refusal::first_refusal, words::specs::Refusal::unless))]
fn take_fit(t: Table, image: &[u8]) -> Result<State, Refusal>
    requires { table_fits t ≡ true }
    ensures { Reads result (read_state_refusal t image.now) (state_in t.n image.now) }
{
    let s = take(image, t.n)?;
    if s.fits(t) {
        Ok(s)
    } else {
        Err(Refusal::StateRule)
    }
}

// Takes the fields of the image of a state of n heads; refused with 4, 5, or 6 for a phase number or a slot.
#[tactic(auto, unfolding(crate::specs::StateImage::take_refusal, crate::specs::StateImage::state_in, words::specs::Refusal::first_refusal, words::specs::Refusal::unless))]
fn take(image: &[u8], n: u8) -> Result<State, Refusal>
    requires { n ≤ max_heads }
    ensures { Reads result (take_refusal n image.now) (state_in n image.now) }
{
    if image.len() != FRONT + HEAD * n as usize {
        return Err(Refusal::StateLength);
    }
    if !marked(image, MARK) || bits8(image, COUNT_AT) != n {
        return Err(Refusal::StateMark);
    }
    let heads = take_heads(image, n as usize).ok_or(Refusal::StateRule)?;
    Ok(State {
        clock: bits32(image, CLOCK_AT),
        n,
        calendar: take_calendar(image),
        heads,
    })
}

fn take_calendar(image: &[u8]) -> Calendar
    requires { state_front ≤ length image.now }
    ensures { result ≡ calendar_in image.now }
{
    Calendar {
        hearers: number(image, HEARERS_AT, 8),
        kind: bits8(image, KIND_AT),
        origin: bits8(image, ORIGIN_AT),
        sent: bits32(image, SENT_AT),
        delivery: bits32(image, DELIVERY_AT),
    }
}

// The heads, if the phase of each is known, in places of which those above n are zero.
fn take_heads(image: &[u8], n: usize) -> Option<[Head; State::MAX_HEADS]>
    requires { (n ≤ max_heads) × (state_length n ≤ length image.now) }
    ensures { Known result (every n (λ i. known_at image.now (head_place i))) (places no_head (λ i. head_at image.now (head_place i)) n) }
{
    let mut heads = [Head::ZERO; State::MAX_HEADS];
    for (k, head) in heads[..n].iter_mut().enumerate() {
        *head = take_head(image, FRONT + HEAD * k)?;
    }
    Some(heads)
}

#[tactic(auto, unfolding(crate::specs::StateImage::head_at, crate::specs::StateImage::known_at))]
fn take_head(image: &[u8], at: usize) -> Option<Head>
    requires { at + head_length ≤ length image.now }
    ensures { Known result (known_at image.now at) (head_at image.now at) }
{
    Some(Head {
        phase: phase_from(bits8(image, at), bits8(image, at + 1))?,
        timeout: bits32(image, at + 2),
    })
}

// The phase of a number and a slot, which only an active head has. `TryFrom` of two bytes would not say which is which.
#[tactic(auto, unfolding(crate::specs::StateImage::phase_from, crate::specs::StateImage::phase_known))]
fn phase_from(number: u8, slot: u8) -> Option<Phase>
    ensures { Known result (phase_known number slot) (phase_from number slot) }
{
    match (number, slot) {
        (0, 0) => Some(Phase::Init),
        (1, 0) => Some(Phase::Listen),
        (2, 0) => Some(Phase::Coldstart),
        (3, _) => Some(Phase::Active(slot)),
        _ => None,
    }
}
