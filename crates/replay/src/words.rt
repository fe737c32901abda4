// The stored numbers, read by place.
ghost use Rattle.std.specs.Prelude.{◌≡◌, length};

use std::io;
use std::io::Read;
use std::num::wrapping_add_u32;

// Room for so many numbers. The `ensures` gives only the length, which lending an array as a slice needs. Three programs have it: so weak
// a contract lets no wrong body through, so that a shared one could have no edit that is refused.
pub(crate) fn room<T: Copy, const N: usize>(zero: T) -> [T; N]
    ensures { N ≡ length result }
{
    [zero; N]
}

fn with_digit(value: u32, b: u8) -> u32 {
    ((value as u64 * 10 + (b % 16) as u64) % 4294967296) as u32
}

// A number put at a place, if there is one; answers the next place.
fn put_at(words: &mut [u32], k: usize, value: u32) -> usize {
    if let Some(place) = words.get_mut(k) {
        *place = value;
        return k + 1;
    }
    k
}

// Where the next number goes, and the number so far, if there is one.
#[derive(Drop)]
struct Reading {
    k: usize,
    value: Option<u32>,
}

fn with_byte(b: u8, r: Reading, words: &mut [u32]) -> Reading {
    if b.is_ascii_digit() {
        return Reading {
            k: r.k,
            value: Some(with_digit(r.value.unwrap_or(0), b)),
        };
    }
    let k = match r.value {
        Some(value) => put_at(words, r.k, value),
        None => r.k,
    };
    Reading { k, value: None }
}

// The numbers of a piece of text, each to its place in `words`. Anything but a digit parts them.
fn read_piece(text: &[u8], before: Reading, words: &mut [u32]) -> Reading {
    let mut r = before;
    for b in text {
        r = with_byte(*b, r, words);
    }
    r
}

// The numbers of a file of up to a million bytes, into the start of `words`.
pub(crate) fn read_numbers(file: &mut impl Read, words: &mut [u32]) -> io::Result<()> {
    let mut r = Reading { k: 0, value: None };
    let mut piece = room::<u8, 65536>(0);
    for _ in 0..16 {
        let size = reading::fill(file, &mut piece)?;
        r = read_piece(&piece[..size], r, words);
    }
    Ok(())
}

// The number at a place of a list, 0 beyond the end.
fn number<T: Copy + Into<u32>>(list: &[T], at: u32) -> u32 {
    match list.get(at as usize) {
        Some(x) => (*x).into(),
        None => 0,
    }
}

// The number at a place, 0 beyond the end.
pub(crate) fn word(words: &[u32], at: u32) -> u32 {
    number(words, at)
}

// The k-th number of the record at a place.
pub(crate) fn field(words: &[u32], at: u32, k: u32) -> u32 {
    word(words, wrapping_add_u32(at, k))
}

pub(crate) fn small(words: &[u32], at: u32, k: u32) -> u8 {
    (field(words, at, k) % 256) as u8
}

// A signed number: 1 for below zero, then the size.
pub(crate) fn signed(words: &[u32], at: u32, k: u32) -> i32 {
    let size = (field(words, at, wrapping_add_u32(k, 1)) % 2147483648) as i32;
    if field(words, at, k) == 1 {
        return -size;
    }
    size
}

// Whether the record's numbers from a place on are the first of a list.
pub(crate) fn same<T: Copy + Into<u32>>(list: &[T], words: &[u32], at: u32, count: u32) -> bool {
    (0..count).all(|i| number(list, i) == field(words, at, i))
}
