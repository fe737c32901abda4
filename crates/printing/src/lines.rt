// A line a date.
ghost use Rattle.std.specs.Prelude.{◌≡◌, ◌+◌, ◌≤◌, length, drop, get_or};
ghost use Rattle.printing.specs.Text.{date_text, mark, bracketed, first_line, later_line, later_lines, lines};
ghost use Rattle.printing.specs.Put.{Put, differs, differing};

use crate::puts::{put_byte, put_bytes, put_two};
use date::civil;

// R for a regular period, S for another, and for a flag that is not there.
#[tactic(auto, unfolding(crate::specs::Text::mark))]
fn mark_at(flags: &[u8], i: usize) -> u8
    ensures { result ≡ mark (get_or flags.now i 0) }
{
    match flags.get(i) {
        Some(1) => b'R',
        _ => b'S',
    }
}

fn put_date(day: u32, at: usize, out: &mut [u8]) -> usize
    requires { at + 10 ≤ length out.old }
    ensures { Put (date_text day) at out.old result out.new }
{
    let f = civil::fields_of(day);
    let century = put_two(f.year / 100, at, out);
    let year = put_two(f.year, century, out);
    let hyphen = put_byte(b'-', year, out);
    let month = put_two(f.month, hyphen, out);
    let last = put_byte(b'-', month, out);
    put_two(f.day, last, out)
}

// The unadjusted date of the i-th entry; where it is not there, the paid one.
fn unadjusted_at(unadjusted: &[u32], i: usize, paid: u32) -> u32
    ensures { result ≡ get_or unadjusted.now i paid }
{
    unadjusted.get(i).copied().unwrap_or(paid)
}

// 1 where the two dates of an entry differ.
#[tactic(auto, unfolding(crate::specs::Put::differs))]
fn differ(day: u32, other: u32) -> usize
    ensures { result ≡ differs day other }
{
    usize::from(day != other)
}

// How many lines have brackets.
pub(crate) fn count_differing(dates: &[u32], unadjusted: &[u32]) -> usize
    ensures { result ≡ differing dates.now unadjusted.now }
{
    let mut n = 0;
    for (i, day) in dates.iter().enumerate() {
        n += differ(*day, unadjusted_at(unadjusted, i, *day));
    }
    n
}

// The unadjusted date in brackets, where it is not the paid one.
fn put_bracketed(paid: u32, unadjusted: u32, at: usize, out: &mut [u8]) -> usize
    requires { at + length (bracketed paid unadjusted) ≤ length out.old }
    ensures { Put (bracketed paid unadjusted) at out.old result out.new }
{
    if paid == unadjusted {
        return at;
    }
    let inside = put_bytes(b" (", at, out);
    let last = put_date(unadjusted, inside, out);
    put_byte(b')', last, out)
}

fn put_first(paid: u32, unadjusted: u32, at: usize, out: &mut [u8]) -> usize
    requires { at + length (first_line paid unadjusted) ≤ length out.old }
    ensures { Put (first_line paid unadjusted) at out.old result out.new }
{
    let next = put_date(paid, at, out);
    let feed = put_bracketed(paid, unadjusted, next, out);
    put_byte(b'\n', feed, out)
}

fn put_later(paid: u32, letter: u8, unadjusted: u32, at: usize, out: &mut [u8]) -> usize
    requires { at + length (later_line paid letter unadjusted) ≤ length out.old }
    ensures { Put (later_line paid letter unadjusted) at out.old result out.new }
{
    let space = put_date(paid, at, out);
    let next = put_bytes(&[b' ', letter], space, out);
    let last = put_bracketed(paid, unadjusted, next, out);
    put_byte(b'\n', last, out)
}

fn put_all_later(
    dates: &[u32],
    flags: &[u8],
    unadjusted: &[u32],
    at: usize,
    out: &mut [u8],
) -> usize
    requires { at + length (later_lines dates.now flags.now unadjusted.now) ≤ length out.old }
    ensures { Put (later_lines dates.now flags.now unadjusted.now) at out.old result out.new }
{
    let mut next = at;
    for (i, day) in dates.iter().enumerate() {
        let other = unadjusted_at(unadjusted, i, *day);
        next = put_later(*day, mark_at(flags, i), other, next, out);
    }
    next
}

// All but the first.
fn others<'a>(unadjusted: &'a [u32]) -> &'a [u32]
    ensures { result.now ≡ drop 1 unadjusted.now }
{
    match unadjusted {
        [_, rest @ ..] => rest,
        [] => unadjusted,
    }
}

pub(crate) fn put_lines(
    dates: &[u32],
    flags: &[u8],
    unadjusted: &[u32],
    at: usize,
    out: &mut [u8],
) -> usize
    requires { at + length (lines dates.now flags.now unadjusted.now) ≤ length out.old }
    ensures { Put (lines dates.now flags.now unadjusted.now) at out.old result out.new }
{
    if dates.len() == 0 {
        return at;
    }
    let next = put_first(dates[0], unadjusted_at(unadjusted, 0, dates[0]), at, out);
    put_all_later(&dates[1..], flags, others(unadjusted), next, out)
}
