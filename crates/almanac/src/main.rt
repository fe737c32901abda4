// Walks every day from 1800-01-01 to 2399-12-31 through the functions of `date`, and prints a digest of their answers for
// each year. What it must print is made from another calendar (tools/almanac.py).
#![tactic(auto)]

use date::{Date, Fields, civil, span};
use period::Unit;
use refusal::Refusal;
use std::cmp::Ordering;
use std::io;

// The digest of the values so far and one more.
fn fold(digest: u32, value: u32) -> u32 {
    ((digest as u64 * 31 + value as u64) % 4294967291) as u32
}

// An answer as one number: the day, or the refusal's number.
fn day_of(answer: Result<Date, Refusal>) -> u32 {
    match answer {
        Ok(date) => date.day,
        Err(refusal) => refusal.number() as u32,
    }
}

fn weekday_of(answer: Result<u32, Refusal>) -> u32 {
    match answer {
        Ok(weekday) => weekday,
        Err(refusal) => refusal.number() as u32 + 100,
    }
}

fn place_of(answer: Result<Ordering, Refusal>) -> u32 {
    match answer {
        Ok(Ordering::Less) => 11,
        Ok(Ordering::Equal) => 12,
        Ok(Ordering::Greater) => 13,
        Err(refusal) => refusal.number() as u32,
    }
}

// The first day of the book moved by the difference to a date, which is that date again.
fn moved_back(answer: Result<i32, Refusal>) -> u32 {
    match answer {
        Ok(days) => day_of(Date::FIRST.advance(days, Unit::Days)),
        Err(refusal) => refusal.number() as u32,
    }
}

fn fold_fields(digest: u32, answer: Result<Fields, Refusal>) -> u32 {
    match answer {
        Ok(f) => fold(fold(fold(digest, f.year), f.month), f.day),
        Err(refusal) => fold(digest, refusal.number() as u32),
    }
}

// Functions that take any day.
fn fold_civil(digest: u32, n: u32) -> u32 {
    let f = civil::fields_of(n);
    let year = f.year;
    let month = f.month;
    let day = f.day;
    let a = fold(
        fold(digest, civil::weekday_of(n)),
        day_of(span::last_of_month(n)),
    );
    fold(
        fold(a, day_of(Date::make(year, month, day))),
        civil::month_length(year, month),
    )
}

// Months that are counted from, before 1800 and after 2399 too, and days on both sides of the span's ends.
fn fold_months(digest: u32, n: u32) -> u32 {
    let a = fold(digest, day_of(span::in_month((n % 30000) as u64, n % 32)));
    let b = fold(
        a,
        day_of(span::months_from(n % 30000, n % 2 == 0, n % 400, n % 32)),
    );
    fold(b, day_of(span::within((n % 300000 + 600000) as u64)))
}

fn fold_span(digest: u32, n: u32) -> u32 {
    let a = fold(
        digest,
        day_of(span::shift_by(n, false, n % 400, Unit::Days)),
    );
    let b = fold(a, day_of(span::shift_by(n, true, n % 60, Unit::Weeks)));
    let c = fold(b, day_of(span::shift_by(n, false, n % 30, Unit::Months)));
    let d = fold(c, day_of(span::shift_by(n, true, n % 30, Unit::Months)));
    fold_months(
        fold(d, day_of(span::shift_by(n, true, n % 5, Unit::Years))),
        n,
    )
}

// Functions that refuse a day outside the book.
fn fold_book(digest: u32, n: u32) -> u32 {
    let date = Date { day: n };
    let a = fold_fields(digest, date.fields());
    let b = fold(a, weekday_of(date.weekday()));
    let c = fold(b, day_of(date.month_end()));
    let d = fold(c, day_of(date.next_weekday(n % 9)));
    let e = fold(d, place_of(date.compare(Date::LAST)));
    fold(e, moved_back(date.difference(Date::FIRST)))
}

fn fold_moves(digest: u32, n: u32) -> u32 {
    let date = Date { day: n };
    let f = civil::fields_of(n);
    let year = f.year;
    let month = f.month;
    let a = fold(digest, day_of(date.advance(1, Unit::Months)));
    let b = fold(a, day_of(date.advance(-3, Unit::Years)));
    let c = fold(b, day_of(date.advance(-40000, Unit::Days)));
    fold(c, day_of(Date::nth_weekday(n % 7, n % 9, month, year)))
}

// The digest of the days from one day on, as many as are said.
fn digest_from(first: u32, days: u32) -> u32 {
    let mut digest: u32 = 0;
    for k in 0..days {
        let n = std::num::wrapping_add_u32(first, k);
        digest = fold_moves(fold_book(fold_span(fold_civil(digest, n), n), n), n);
    }
    digest
}

fn digest_of_year(year: u32) -> u32 {
    let first = day_of(Date::make(year, 1, 1));
    if civil::is_leap(year) {
        digest_from(first, 366)
    } else {
        digest_from(first, 365)
    }
}

fn main(rt: HostRuntime) -> io::Result<()> {
    for year in 1800..2400u32 {
        let digest = digest_of_year(year);
        println!(rt; "{year} {digest}")?;
    }
    Ok(())
}
