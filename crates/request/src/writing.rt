// A request's fields written, each from a place on: later places keep what they held.
ghost use Rattle.std.specs.Prelude.{◌≡◌, true, [], ◌∷◌, ◌+◌, ◌*◌, ◌≤◌, ◌<◌, length};
ghost use Rattle.steps.specs.Build.{over};
ghost use Rattle.request.specs.Tags.{TENOR};
ghost use Rattle.request.specs.Encode.{bytes4, head_of, spelt, fits16, letter_of, bit, tenor_body, dates_in, sayable, bytes_of, laid, dates_part, choices_part, anchors_part, closed_part};
ghost use Rattle.request.specs.Inner.Places.{Bits};

use crate::tags;
use date::Date;
use period::{Period, Unit, sign};
use steps::{Request, moves, rules};

// Whether sixteen bits hold a number with its sign.
#[tactic(auto, unfolding(crate::specs::Encode::fits16))]
fn fits_sixteen(n: i32) -> bool
    ensures { result ≡ fits16 n }
{
    -32768 <= n && n <= 32767
}

// Whether the format can say the request and so many closed dates.
#[tactic(auto, unfolding(crate::specs::Encode::sayable))]
pub(crate) fn is_sayable(q: &Request, count: usize) -> bool
    ensures { result ≡ sayable q.now count }
{
    fits_sixteen(q.tenor.length) && q.mask < 128 && count <= 4096
}

#[tactic(auto, unfolding(crate::specs::Encode::letter_of))]
fn letter_of(unit: Unit) -> u8
    ensures { result ≡ letter_of unit }
{
    match unit {
        Unit::Days => b'D',
        Unit::Weeks => b'W',
        Unit::Months => b'M',
        Unit::Years => b'Y',
    }
}

#[tactic(auto, unfolding(crate::specs::Encode::bit))]
fn bit_of(b: bool) -> u8
    ensures { result ≡ bit b }
{
    u8::from(b)
}

// The sixteen bits of a number with its sign.
fn bits_of(n: i32) -> u32
    requires { fits16 n ≡ true }
    ensures { Bits n result }
{
    let size = sign::size(n);
    if sign::is_negative(n) {
        return 65536 - size;
    }
    size
}

// A tag and the length of a body.
fn put_head(out: &mut [u8], at: usize, tag: u8, size: usize)
    requires { (at + 3 ≤ length out.old) × (size < 65536) }
    ensures { out.new ≡ laid out.old at (head_of tag size) }
{
    out[at] = tag;
    out[at + 1] = (size / 256) as u8;
    out[at + 2] = (size % 256) as u8;
}

fn put_word(out: &mut [u8], at: usize, n: u32)
    requires { at + 4 ≤ length out.old }
    ensures { out.new ≡ laid out.old at (bytes4 n) }
{
    let a = n / 256;
    let b = a / 256;
    out[at] = (b / 256) as u8;
    out[at + 1] = (b % 256) as u8;
    out[at + 2] = (a % 256) as u8;
    out[at + 3] = (n % 256) as u8;
}

fn put_date(out: &mut [u8], at: usize, tag: u8, date: Date)
    requires { at + 7 ≤ length out.old }
    ensures { out.new ≡ laid out.old at (spelt tag (bytes4 date.day)) }
{
    put_head(out, at, tag, 4);
    put_word(out, at + 3, date.day);
}

fn put_byte(out: &mut [u8], at: usize, tag: u8, b: u8)
    requires { at + 4 ≤ length out.old }
    ensures { out.new ≡ laid out.old at (spelt tag (b ∷ [])) }
{
    put_head(out, at, tag, 1);
    out[at + 3] = b;
}

fn put_tenor(out: &mut [u8], at: usize, tenor: Period)
    requires { (at + 6 ≤ length out.old) × (fits16 tenor.length ≡ true) }
    ensures { out.new ≡ laid out.old at (spelt TENOR (tenor_body tenor)) }
{
    let n = bits_of(tenor.length);
    let unit = tenor.unit;
    let letter = letter_of(unit);
    put_head(out, at, tags::TENOR, 3);
    out[at + 3] = letter;
    out[at + 4] = (n / 256) as u8;
    out[at + 5] = (n % 256) as u8;
}

// The fields 01 to 03.
fn put_dates(q: &Request, out: &mut [u8])
    requires { (60 ≤ length out.old) × (fits16 q.now.tenor.length ≡ true) }
    ensures { out.new ≡ laid out.old 0 (dates_part q.now) }
{
    put_date(out, 0, tags::EFFECTIVE, q.effective);
    put_date(out, 7, tags::TERMINATION, q.termination);
    put_tenor(out, 14, q.tenor);
}

// The fields 04 to 07.
fn put_choices(q: &Request, out: &mut [u8])
    requires { 60 ≤ length out.old }
    ensures { out.new ≡ laid out.old 20 (choices_part q.now) }
{
    put_byte(out, 20, tags::RULE, rules::rule_number(q.rule));
    put_byte(
        out,
        24,
        tags::CONVENTION,
        moves::convention_number(q.convention),
    );
    put_byte(
        out,
        28,
        tags::TERMINAL,
        moves::convention_number(q.terminal),
    );
    put_byte(out, 32, tags::MONTHEND, bit_of(q.monthend));
}

// The fields 08 to 0A.
fn put_anchors(q: &Request, out: &mut [u8])
    requires { 60 ≤ length out.old }
    ensures { out.new ≡ laid out.old 36 (anchors_part q.now) }
{
    put_date(out, 36, tags::FIRST, q.first);
    put_date(out, 43, tags::PENULTIMATE, q.penultimate);
    put_byte(out, 50, tags::MASK, q.mask);
}

fn put_words(out: &mut [u8], at: usize, closed: &[u32])
    requires { at + length closed.now * 4 ≤ length out.old }
    ensures { out.new ≡ laid out.old at (dates_in closed.now) }
{
    for (j, day) in closed.iter().enumerate() {
        put_word(out, at + j * 4, *day);
    }
}

// The field 0B, and FF.
fn put_closed(closed: &[u32], out: &mut [u8])
    requires { (60 + length closed.now * 4 ≤ length out.old) × (length closed.now ≤ 4096) }
    ensures { out.new ≡ laid out.old 54 (closed_part closed.now) }
{
    let size = closed.len() * 4;
    put_head(out, 54, tags::CLOSED, size);
    put_words(out, 57, closed);
    put_head(out, 57 + size, tags::END, 0);
}

pub(crate) fn put_request(q: &Request, closed: &[u32], out: &mut [u8])
    requires { (60 + length closed.now * 4 ≤ length out.old) × (sayable q.now (length closed.now) ≡ true) }
    ensures { out.new ≡ over (bytes_of q.now closed.now) out.old }
{
    put_dates(q, out);
    put_choices(q, out);
    put_anchors(q, out);
    put_closed(closed, out);
}
