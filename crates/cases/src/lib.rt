// Stored cases (tests/README.md has their layout): the next case of the input, and the numbers and points that its bytes stand for.
#![tactic(auto)]

mod call;

ghost use Rattle.std.specs.Prelude.{◌≡◌, ◌+◌, ◌/◌, ◌<◌, ◌≤◌, MatchOption, drop, length, replicate, take};
ghost use Rattle.std.specs.Int.{from_be_bytes, w16};

pub use call::{Call, UnknownCall};
use geometry::Point;
use std::io::Read;
use std::num;

// A case: its call, None for a letter that stands for none, and the bytes that the call is given.
#[derive(Clone, Copy, Debug)]
pub struct Case<'a> {
    pub call: Option<Call>,
    pub bytes: &'a [u8],
}

// A byte below '0' counts 0.
fn digit(b: u8) -> usize
    ensures { result ≤ 255 }
{
    usize::from(b.saturating_sub(b'0'))
}

// The head of the next case: a letter, five decimal digits and a line feed.
fn read_head(input: &mut impl Read) -> Option<(u8, usize)> {
    let mut head = [0u8; 7];
    input.read_exact(&mut head).ok()?;
    let [letter, a, b, c, d, e, _] = head;
    let high = 100 * digit(a) + 10 * digit(b) + digit(c);
    Some((letter, 100 * high + 10 * digit(d) + digit(e)))
}

// Reads the bytes of the next case to the front of the buffer; None where there is no case, or none that fits.
pub fn read_case<'a>(input: &mut impl Read, buffer: &'a mut [u8]) -> Option<Case<'a>> {
    let (letter, length) = read_head(input)?;
    let bytes = buffer.get_mut(..length)?;
    input.read_exact(bytes).ok()?;
    let call = Call::try_from(letter).ok();
    Some(Case { call, bytes })
}

// The N bytes at the place; zeros where they are not all there.
fn bytes_at<const N: usize>(bytes: &[u8], at: usize) -> [u8; N]
    ensures found { at + N ≤ length bytes.now → result ≡ take N (drop at bytes.now) }
    ensures missing { length bytes.now < at + N → result ≡ replicate N 0 }
{
    let mut copy = [0; N];
    if let Some(found) = bytes.get(at..at.saturating_add(N)) {
        copy.copy_from_slice(found);
    }
    copy
}

// The number of 8 bytes at the place; 0 where they are not all there.
pub fn word_at(bytes: &[u8], at: usize) -> u64 {
    u64::from_be_bytes(bytes_at(bytes, at))
}

// The same, signed.
pub fn signed_word_at(bytes: &[u8], at: usize) -> i64 {
    i64::from_be_bytes(bytes_at(bytes, at))
}

// The same, where an i32 holds it; else 0.
pub fn int_at(bytes: &[u8], at: usize) -> i32 {
    i32::try_from(signed_word_at(bytes, at)).unwrap_or(0)
}

// The float whose bits are the 8 bytes at the place; those of any NaN stand for a NaN.
pub fn float_at(bytes: &[u8], at: usize) -> f64 {
    num::f64_from_bits_with_nan(word_at(bytes, at))
}

// The signed number of 2 bytes at the place; 0 where they are not both there.
pub fn number_at(bytes: &[u8], at: usize) -> i16 {
    i16::from_be_bytes(bytes_at(bytes, at))
}

// The length of 2 bytes at the place; 0 where they are not both there.
pub fn length_at(bytes: &[u8], at: usize) -> usize
    ensures found { at + 2 ≤ length bytes.now → result ≡ from_be_bytes w16 (take 2 (drop at bytes.now)) }
    ensures missing { length bytes.now < at + 2 → result ≡ 0 }
{
    usize::from(u16::from_be_bytes(bytes_at(bytes, at)))
}

// The point of two signed numbers of 2 bytes each.
pub fn point_at(bytes: &[u8], at: usize) -> Point {
    let x = number_at(bytes, at);
    let y = number_at(bytes, at.saturating_add(2));
    Point { x, y }
}

// Fills the front of the list with signed numbers of 2 bytes each, as far as there are bytes.
pub fn fill_list(bytes: &[u8], list: &mut [i16]) {
    for (number, v) in bytes.chunks_exact(2).zip(list) {
        *v = number_at(number, 0);
    }
}

// The list of the numbers of 2 bytes each, at the front of the room; None where it is too short for them.
pub fn list_in<'a>(bytes: &[u8], room: &'a mut [i16]) -> Option<&'a mut [i16]>
    ensures { MatchOption result (length room.old < length bytes.now / 2) (λ list. (length list.now ≡ length bytes.now / 2) × (length list.now ≤ length room.old)) }
{
    fill_list(bytes, room);
    room.get_mut(..bytes.len() / 2)
}
