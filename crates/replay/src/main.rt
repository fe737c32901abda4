// Replays stored answers of the Rust's through the functions that customers call, and prints how many agree and which is the
// first that does not. The file `answers` is a text of numbers; oracle/replay.py makes it and says what they stand for.
#![tactic(auto)]

use capi::builds::heronspan_build;
use std::num::wrapping_add_u32;
use std::{fs, io};
use words::{field, same, signed, small, word};

// The stored numbers.
mod words;
// Questions other than builds.
mod questions;

// How the records so far compare: the place of the next one, how many were asked, how many agreed, and the first that did
// not, counted from 1.
#[derive(Drop)]
struct Tally {
    at: u32,
    asked: u32,
    agreed: u32,
    first: Option<u32>,
}

fn ask_build(
    words: &[u32],
    at: u32,
    closed: &[u32],
    dates: &mut [u32],
    flags: &mut [u8],
    unadjusted: &mut [u32],
    answer: &mut [u32],
) -> i64 {
    heronspan_build(
        field(words, at, 2),
        field(words, at, 3),
        signed(words, at, 4),
        small(words, at, 6),
        small(words, at, 7),
        small(words, at, 8),
        small(words, at, 9),
        small(words, at, 10),
        field(words, at, 11),
        field(words, at, 12),
        small(words, at, 13),
        closed,
        dates,
        flags,
        unadjusted,
        answer,
    )
}

fn one_fewer(n: u32) -> u32 {
    n.saturating_sub(1)
}

// A build agrees if the first six numbers of its record, its paid dates and its flags do: the Rust has no unadjusted dates.
fn build_agrees(words: &[u32], at: u32, closed: &[u32], told: u32) -> bool {
    let mut dates = [0u32; 4096];
    let mut flags = [0u8; 4096];
    let mut unadjusted = [0u32; 4096];
    let mut answer = [0u32; 7];
    ask_build(
        words,
        at,
        closed,
        &mut dates,
        &mut flags,
        &mut unadjusted,
        &mut answer,
    );
    let count = answer[1];
    let listed = wrapping_add_u32(told, 6);
    let flagged = wrapping_add_u32(listed, count);
    same(&answer, words, told, 6)
        && same(&dates, words, listed, count)
        && same(&flags, words, flagged, one_fewer(count))
}

// Whether an answer is minus a refusal's number; 99 stands for any.
fn refuses(got: i64, number: u32) -> bool {
    match number {
        2 => got == -2,
        3 => got == -3,
        5 => got == -5,
        13 => got == -13,
        16 => got == -16,
        99 => got < 0,
        _ => false,
    }
}

// An answer other than a build's agrees by its value or by its refusal.
fn answer_agrees(got: i64, number: u32, value: u32) -> bool {
    if number == 0 {
        return got == value as i64;
    }
    refuses(got, number)
}

fn small_agrees(words: &[u32], at: u32, closed: &[u32], told: u32) -> bool {
    let got = questions::ask(words, at, closed);
    answer_agrees(got, word(words, told), field(words, told, 1))
}

// Whether the record at a place agrees. Its list has n numbers, from the list's place on.
fn agrees(words: &[u32], at: u32, list: u32, n: u32) -> bool {
    let from = list as usize;
    let end = from + n as usize;
    if words.len() < end {
        return false;
    }
    let told = wrapping_add_u32(list, n);
    if field(words, at, 1) == 0 {
        return build_agrees(words, at, &words[from..end], told);
    }
    small_agrees(words, at, &words[from..end], told)
}

fn agrees_at(words: &[u32], at: u32) -> bool {
    if field(words, at, 1) == 0 {
        return agrees(words, at, wrapping_add_u32(at, 15), field(words, at, 14));
    }
    agrees(words, at, wrapping_add_u32(at, 10), field(words, at, 9))
}

// The tally with the next record, which begins with how many numbers follow in it.
fn with_next(words: &[u32], t: Tally) -> Tally {
    let asked = wrapping_add_u32(t.asked, 1);
    let at = wrapping_add_u32(wrapping_add_u32(t.at, 1), word(words, t.at));
    if agrees_at(words, t.at) {
        return Tally {
            at,
            asked,
            agreed: wrapping_add_u32(t.agreed, 1),
            first: t.first,
        };
    }
    Tally {
        at,
        asked,
        agreed: t.agreed,
        first: t.first.or(Some(asked)),
    }
}

fn replay(words: &[u32]) -> Tally {
    let mut t = Tally {
        at: 1,
        asked: 0,
        agreed: 0,
        first: None,
    };
    let records = word(words, 0);
    for _ in 0..records {
        t = with_next(words, t);
    }
    t
}

fn print(rt: &impl Print, t: Tally) -> io::Result<()> {
    println!(rt; "{} of {} answers agree", t.agreed, t.asked)?;
    if let Some(first) = t.first {
        println!(rt; "the first that does not is number {first}")?;
    }
    Ok(())
}

fn main(rt: HostRuntime) -> io::Result<()> {
    let mut words = words::room::<u32, 196608>(0);
    words::read_numbers(&mut fs::open(&rt, "answers")?, &mut words)?;
    print(&rt, replay(&words))
}
