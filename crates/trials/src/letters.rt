// Letters and numbers of a line.
ghost use Rattle.std.specs.Prelude.{◌<◌};

use std::num::TryFromIntError;

// The byte of a line at a place, 0 past its end: 0 is no try's letter, so a `None` would only say the same in each match.
pub fn letter(line: &[u8], at: usize) -> u8 {
    line.get(at).copied().unwrap_or(0)
}

// A number with one more digit. One that sixty-four bits cannot hold comes out wrong, as it always has, and the sheet would show it.
fn joined(x: u64, digit: u8) -> u64 {
    match x.checked_mul(10) {
        Some(tens) => tens.wrapping_add(digit.wrapping_sub(b'0') as u64),
        None => x,
    }
}

// The number of a line that so many others stand before, if it has so many. It steps from number to number: to split a whole line for each
// takes half as long again on the lines of a state.
pub fn find(line: &[u8], before: usize) -> Option<u64> {
    let mut rest = first(line)?;
    for _ in 0..before {
        rest = first(behind(rest))?;
    }
    let number = rest.iter().take_while(|b| b.is_ascii_digit());
    Some(number.fold(0, |x, &b| joined(x, b)))
}

// What begins with the first digit.
fn first(line: &[u8]) -> Option<&[u8]> {
    let at = line.iter().position(|b| b.is_ascii_digit())?;
    Some(&line[at..])
}

// What follows the digits that a line begins with.
fn behind(line: &[u8]) -> &[u8] {
    match line.iter().position(|b| !b.is_ascii_digit()) {
        Some(at) => &line[at..],
        None => &[],
    }
}

// The widths of a record's numbers.
pub trait Width: TryFrom<u64, Error = TryFromIntError> + Drop {
    const LARGEST: Self;
}

impl Width for u8 {
    const LARGEST: u8 = u8::MAX;
}

impl Width for u16 {
    const LARGEST: u16 = u16::MAX;
}

impl Width for u32 {
    const LARGEST: u32 = u32::MAX;
}

impl Width for u64 {
    const LARGEST: u64 = u64::MAX;
}

// That number at a record's width: the largest of it where the line's is larger, 0 where the line has none.
pub fn number<T: Width>(line: &[u8], before: usize) -> T {
    T::try_from(find(line, before).unwrap_or(0)).unwrap_or(T::LARGEST)
}

// Which of so many places a line names first, counted from 0; the last one where there is no such place.
pub fn place(line: &[u8], places: usize) -> usize
    requires { 0 < places }
    ensures { result < places }
{
    match find(line, 0) {
        Some(i) if 1 <= i && i <= places as u64 => i as usize - 1,
        _ => places - 1,
    }
}
