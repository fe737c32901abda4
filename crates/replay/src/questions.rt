// A stored question asked again: its kind, up to seven numbers, and a list of closed dates or of a code's bytes.
use crate::words::{field, signed, small};
use capi::calendars::{
    heronspan_adjust, heronspan_calendar_advance, heronspan_calendar_month_end,
    heronspan_is_month_end,
};
use capi::counts::{heronspan_difference, heronspan_times};
use capi::cycles::{
    heronspan_imm_code, heronspan_imm_date, heronspan_is_imm_code, heronspan_is_imm_date,
    heronspan_next_imm_code, heronspan_next_imm_code_with_code, heronspan_next_imm_date,
    heronspan_next_imm_date_with_code, heronspan_next_twentieth, heronspan_previous_twentieth,
};
use capi::dates::{
    heronspan_advance, heronspan_compare, heronspan_fields, heronspan_make, heronspan_month_end,
    heronspan_next_weekday, heronspan_nth_weekday, heronspan_weekday,
};

// A count in a list of one is told as 1 if it is the expected one, else as 0; a refusal stays as it is.
fn told(number: i64, count: i32, expected: i32) -> i64 {
    if number != 0 {
        return number;
    }
    if count == expected { 1 } else { 0 }
}

fn difference(words: &[u32], at: u32) -> i64 {
    let mut days = [0i32; 1];
    let number = heronspan_difference(field(words, at, 2), field(words, at, 3), &mut days);
    told(number, days[0], signed(words, at, 4))
}

fn product(words: &[u32], at: u32) -> i64 {
    let mut out = [0i32; 1];
    let number = heronspan_times(
        signed(words, at, 2),
        small(words, at, 6),
        signed(words, at, 4),
        &mut out,
    );
    told(number, out[0], signed(words, at, 7))
}

fn of_dates(words: &[u32], at: u32) -> i64 {
    let a = field(words, at, 2);
    let b = field(words, at, 3);
    match field(words, at, 1) {
        1 => heronspan_make(a, b, field(words, at, 4)),
        2 => heronspan_fields(a),
        3 => heronspan_weekday(a),
        4 => heronspan_month_end(a),
        5 => heronspan_advance(a, signed(words, at, 3), small(words, at, 5)),
        6 => heronspan_next_weekday(a, b),
        7 => heronspan_nth_weekday(a, b, field(words, at, 4), field(words, at, 5)),
        8 => difference(words, at),
        9 => heronspan_compare(a, b),
        _ => product(words, at),
    }
}

fn of_calendars(words: &[u32], at: u32, closed: &[u32]) -> i64 {
    let day = field(words, at, 2);
    let mut moved = [0i32; 1];
    match field(words, at, 1) {
        11 => heronspan_adjust(
            day,
            small(words, at, 3),
            small(words, at, 4),
            closed,
            &mut moved,
        ),
        12 => heronspan_calendar_month_end(day, small(words, at, 3), closed, &mut moved),
        13 => heronspan_is_month_end(day, small(words, at, 3), closed),
        _ => heronspan_calendar_advance(
            day,
            signed(words, at, 3),
            small(words, at, 5),
            small(words, at, 6),
            small(words, at, 7),
            small(words, at, 8),
            closed,
            &mut moved,
        ),
    }
}

fn of_days(words: &[u32], at: u32) -> i64 {
    let day = field(words, at, 2);
    let b = small(words, at, 3);
    match field(words, at, 1) {
        15 => heronspan_is_imm_date(day, b),
        16 => heronspan_imm_code(day),
        17 => heronspan_next_imm_date(day, b),
        18 => heronspan_next_imm_code(day, b),
        19 => heronspan_next_twentieth(day, b),
        _ => heronspan_previous_twentieth(day, b),
    }
}

fn with_code(words: &[u32], at: u32, code: &[u8]) -> i64 {
    let day = field(words, at, 2);
    let main = small(words, at, 3);
    match field(words, at, 1) {
        21 => heronspan_is_imm_code(code, main),
        22 => heronspan_imm_date(code, day),
        23 => heronspan_next_imm_date_with_code(code, main, day),
        _ => heronspan_next_imm_code_with_code(code, main, day),
    }
}

fn of_codes(words: &[u32], at: u32) -> i64 {
    let mut code = [0u8; 4];
    code[0] = small(words, at, 10);
    code[1] = small(words, at, 11);
    code[2] = small(words, at, 12);
    code[3] = small(words, at, 13);
    let n = field(words, at, 9) as usize;
    if n <= 4 {
        return with_code(words, at, &code[..n]);
    }
    with_code(words, at, &code)
}

// The answer to the question of the record at a place.
pub(crate) fn ask(words: &[u32], at: u32, closed: &[u32]) -> i64 {
    let kind = field(words, at, 1);
    if kind <= 10 {
        return of_dates(words, at);
    }
    if kind <= 14 {
        return of_calendars(words, at, closed);
    }
    if kind <= 20 {
        return of_days(words, at);
    }
    of_codes(words, at)
}
