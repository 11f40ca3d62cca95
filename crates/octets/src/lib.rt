// Numbers in bytes, least byte first, at any width up to eight bytes, and what both images begin with: what the crates of the table
// image and of the state image have in common, and in proofs/ that such bytes tell their numbers and numbers their bytes. It uses
// words and rules, for the number of places and for what a reader or a writer answers.
#![tactic(auto)]

ghost use Rattle.std.specs.Prelude.{◌≡◌, ◌+◌, ◌≤◌, ◌<◌, ◌^◌, length};
ghost use Rattle.octets.specs.Bytes.{bytes_of, number_at};
ghost use Rattle.octets.specs.Room.{stored};
ghost use Rattle.octets.specs.Fields.{opening_fields, opening, in_bytes, is_marked};

const VERSION: u64 = 1;

// Where the version and N stand, behind the mark.
const VERSION_AT: usize = 3;

pub const COUNT_AT: usize = 5;

// The number that the bytes from a place on make. A field is a width and a number, so the width is a variable (docs/DECISIONS.md).
pub fn number(image: &[u8], at: usize, width: usize) -> u64
    requires { (width ≤ 8) × (at + width ≤ length image.now) }
    ensures { (result ≡ number_at image.now at width) × (result < 256 ^ width) }
{
    image[at..at + width]
        .iter()
        .rev()
        .fold(0, |x, &b| x.wrapping_mul(256).wrapping_add(b as u64))
}

// The same at each width of an image's fields, as a number of that width. One generic function takes a trait, for `as` is not generic; tried,
// it came to twice the lines, and each call named the type in place of the width.
pub fn bits8(image: &[u8], at: usize) -> u8
    requires { at + 1 ≤ length image.now }
    ensures { result ≡ number_at image.now at 1 }
{
    number(image, at, 1) as u8
}

pub fn bits16(image: &[u8], at: usize) -> u16
    requires { at + 2 ≤ length image.now }
    ensures { result ≡ number_at image.now at 2 }
{
    number(image, at, 2) as u16
}

pub fn bits32(image: &[u8], at: usize) -> u32
    requires { at + 4 ≤ length image.now }
    ensures { result ≡ number_at image.now at 4 }
{
    number(image, at, 4) as u32
}

// Writes a number from a place on.
pub fn store(room: &mut [u8], at: usize, width: usize, x: u64)
    requires { at + width ≤ length room.old }
    ensures { room.new ≡ stored room.old at (bytes_of width x) }
{
    let mut rest = x;
    for byte in &mut room[at..at + width] {
        *byte = (rest % 256) as u8;
        rest /= 256;
    }
}

// Writes what both images begin with: a mark, the version and N.
#[tactic(auto, unfolding(crate::specs::Room::stored, crate::specs::Fields::in_bytes, crate::specs::Bytes::bytes_of))]
pub fn store_opening(room: &mut [u8], mark: u64, n: u8)
    requires { opening ≤ length room.old }
    ensures { room.new ≡ stored room.old 0 (in_bytes (opening_fields mark n)) }
{
    store(room, 0, 3, mark);
    store(room, VERSION_AT, 2, VERSION);
    store(room, COUNT_AT, 1, u64::from(n));
}

// Whether an image begins with this mark and with the version.
#[tactic(auto, unfolding(crate::specs::Fields::is_marked))]
pub fn marked(image: &[u8], mark: u64) -> bool
    requires { opening ≤ length image.now }
    ensures { result ≡ is_marked mark image.now }
{
    number(image, 0, 3) == mark && number(image, VERSION_AT, 2) == VERSION
}
