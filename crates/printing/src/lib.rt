// What the program prints: a schedule a line a date, or a refusal's number.
#![tactic(auto)]

ghost use Rattle.std.specs.Prelude.{◌≡◌, ◌+◌, ◌-◌, ◌*◌, ◌≤◌, ◌++◌, leb, length};
ghost use Rattle.printing.specs.Text.{schedule_text, refusal_text, DATES, TRIES};
ghost use Rattle.printing.specs.Put.{Put, fitting};

use puts::{put_byte, put_bytes};

// Bytes put at a place of a lent list, one after the other.
mod puts;
// Numbers in decimal digits.
mod numbers;
// A line a date.
mod lines;

// Whether a header of that many bytes and the lines of n dates, some of them with brackets, have room.
fn has_room(head: usize, n: usize, brackets: usize, room: usize) -> bool
    requires { (2 ≤ head) × (head ≤ 64) }
    ensures { result ≡ leb (head + (13 * (n + brackets) - 2)) room }
{
    if room < head {
        return false;
    }
    let fitting = (room - head + 2) / 13;
    if fitting < n {
        return false;
    }
    brackets <= fitting - n
}

// The header, with two numbers in digits.
fn put_header(count: &[u8], tries: &[u8], out: &mut [u8]) -> usize
    requires { length count.now + length tries.now + 15 ≤ length out.old }
    ensures { Put (count.now ++ DATES ++ tries.now ++ TRIES) 0 out.old result out.new }
{
    let dates = put_bytes(count, 0, out);
    let second = put_bytes(b" dates, ", dates, out);
    let last = put_bytes(tries, second, out);
    put_bytes(b" tries\n", last, out)
}

// The schedule's text put at the start of what is lent, and how many bytes it has; where it does not fit, 0 and nothing.
pub fn schedule(
    tries: u32,
    dates: &[u32],
    flags: &[u8],
    unadjusted: &[u32],
    out: &mut [u8],
) -> usize
    ensures { Put (fitting (schedule_text tries dates.now flags.now unadjusted.now) (length out.old)) 0 out.old result out.new }
{
    let mut count = [0u8; 20];
    let mut tried = [0u8; 20];
    let c = numbers::spell(dates.len() as u64, &mut count);
    let t = numbers::spell(tries as u64, &mut tried);
    let brackets = lines::count_differing(dates, unadjusted);
    if has_room(55 - c - t, dates.len(), brackets, out.len()) {
        let at = put_header(&count[c..], &tried[t..], out);
        return lines::put_lines(dates, flags, unadjusted, at, out);
    }
    0
}

// The refusal's text put at the start of what is lent, and how many bytes it has; where it does not fit, 0 and nothing.
pub fn refusal(number: u8, out: &mut [u8]) -> usize
    ensures { Put (fitting (refusal_text number) (length out.old)) 0 out.old result out.new }
{
    let mut digits = [0u8; 20];
    let d = numbers::spell(number as u64, &mut digits);
    if out.len() < 29 - d {
        return 0;
    }
    let word = put_bytes(b"refused ", 0, out);
    let last = put_bytes(&digits[d..], word, out);
    put_byte(b'\n', last, out)
}
