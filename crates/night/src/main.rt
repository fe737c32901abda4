// Reads a night's book from standard input, and prints for each request its schedule or its refusal; or the refusal of the book.
#![tactic(auto)]

ghost use Rattle.std.specs.Prelude.{◌≡◌, length};

use std::io;
use std::io::Write;

// A byte more than 64 requests of 65,535 bytes have, so that a longer book is refused.
const INPUT: usize = 4194369;

// 64 schedules of 4,096 dates, so that no request is refused for those before it.
const DATES: usize = 262144;

// Four numbers for each of 64 requests.
const ANSWERS: usize = 256;

// Every text has room in so many bytes (`reply::whole`).
const TEXT: usize = 106519;

// Room for so many numbers. The `ensures` gives only the length, which lending an array as a slice needs. Three programs have it: so weak
// a contract lets no wrong body through, so that a shared one could have no edit that is refused.
fn room<T: Copy, const N: usize>(zero: T) -> [T; N]
    ensures { N ≡ length result }
{
    [zero; N]
}

// Where nobody takes the text, as at a closed pipe, it is lost in silence.
fn put_text(rt: &impl Print, text: &[u8], count: usize) {
    if let Some(text) = text.get(..count) {
        let _ = io::writer(rt).write_all(text);
    }
}

fn print_refusal(rt: &impl Print, number: u8, text: &mut [u8]) {
    let count = printing::refusal(number, text);
    put_text(rt, text, count);
}

// A schedule of so many dates that stands at the start of the lists.
fn print_schedule(
    rt: &impl Print,
    count: usize,
    tries: u32,
    dates: &[u32],
    flags: &[u8],
    unadjusted: &[u32],
    text: &mut [u8],
) {
    if let Some(dates) = dates.get(..count) {
        if let Some(unadjusted) = unadjusted.get(..count) {
            let n = printing::schedule(tries, dates, flags, unadjusted, text);
            put_text(rt, text, n);
        }
    }
}

// The request whose answer's four numbers these are.
fn print_answer(
    rt: &impl Print,
    answer: &[u32],
    dates: &[u32],
    flags: &[u8],
    unadjusted: &[u32],
    text: &mut [u8],
) {
    let [count, start, tries, number] = answer else {
        return;
    };
    if *number != 0 {
        if let Ok(number) = u8::try_from(*number) {
            print_refusal(rt, number, text);
        }
        return;
    }
    let start = *start as usize;
    let Some(dates) = dates.get(start..) else {
        return;
    };
    let Some(flags) = flags.get(start..) else {
        return;
    };
    let Some(unadjusted) = unadjusted.get(start..) else {
        return;
    };
    print_schedule(rt, *count as usize, *tries, dates, flags, unadjusted, text);
}

fn print_answers(
    rt: &impl Print,
    n: usize,
    answers: &[u32],
    dates: &[u32],
    flags: &[u8],
    unadjusted: &[u32],
    text: &mut [u8],
) {
    for answer in answers.chunks_exact(4).take(n) {
        print_answer(rt, answer, dates, flags, unadjusted, text);
    }
}

fn main(rt: HostRuntime) -> io::Result<()> {
    let mut input = room::<u8, INPUT>(0);
    let mut dates = room::<u32, DATES>(0);
    let mut flags = room::<u8, DATES>(0);
    let mut unadjusted = room::<u32, DATES>(0);
    let mut answers = room::<u32, ANSWERS>(0);
    let mut text = room::<u8, TEXT>(0);
    let got = reading::fill(&mut rt.reader(), &mut input)?;
    match book::build(
        &input[..got],
        &mut dates,
        &mut flags,
        &mut unadjusted,
        &mut answers,
    ) {
        Err(refusal) => print_refusal(&rt, refusal.number(), &mut text),
        Ok(n) => print_answers(
            &rt,
            n as usize,
            &answers,
            &dates,
            &flags,
            &unadjusted,
            &mut text,
        ),
    }
    Ok(())
}
