// What the bodies of a request's fields ask for.
ghost use Rattle.std.specs.Prelude.{◌≡◌, ℕ, List, ◌/◌, ◌≤◌, length};
ghost use Rattle.steps.specs.Build.{over};
ghost use Rattle.request.specs.Format.{is_date, byte_of, date_of, tenor_of, request_from, dates_of, asked_from};
ghost use Rattle.request.specs.Decode.{Decodes};

use crate::{Decoded, bodies, numbers, tags};
use date::Date;
use period::Period;
use refusal::Refusal;
use steps::Request;

// Where the bodies are: that of each tag, or what stands for it where the field was left out.
pub(crate) trait Bodies {
    ghost body_of: { Self → List ℕ → ℕ → List ℕ };

    ghost sound: { Self → Type 0 };

    fn body<'a>(&'a self, left_out: &'a [u8], tag: u8) -> &'a [u8]
        requires { sound self.now }
        ensures { result.now ≡ body_of self.now left_out.now tag };
}

#[tactic(auto, unfolding(crate::specs::Format::date_of))]
fn date_of(body: &[u8]) -> Date
    ensures { result.day ≡ date_of body.now }
{
    Date {
        day: numbers::word_in(body),
    }
}

fn byte_of(body: &[u8]) -> u8
    ensures { result ≡ byte_of body.now }
{
    body.first().copied().unwrap_or(0)
}

fn tenor_of(body: &[u8]) -> Period
    ensures { result ≡ tenor_of body.now }
{
    Period {
        length: numbers::signed(numbers::pair_in(body)),
        unit: bodies::unit_of(byte_of(body)),
    }
}

#[tactic(auto, unfolding(crate::specs::Format::request_from))]
fn request_from<B: Bodies>(fields: &B) -> Request
    requires { B.sound fields.now }
    ensures { result ≡ request_from (B.body_of fields.now) }
{
    Request {
        effective: date_of(fields.body(b"", tags::EFFECTIVE)),
        termination: date_of(fields.body(b"", tags::TERMINATION)),
        tenor: tenor_of(fields.body(b"D\0\0", tags::TENOR)),
        rule: bodies::rule_of(byte_of(fields.body(b"\x01", tags::RULE))),
        convention: bodies::convention_of(byte_of(fields.body(b"\0", tags::CONVENTION))),
        terminal: bodies::convention_of(byte_of(fields.body(b"\0", tags::TERMINAL))),
        monthend: byte_of(fields.body(b"\0", tags::MONTHEND)) == 1,
        first: date_of(fields.body(b"", tags::FIRST)),
        penultimate: date_of(fields.body(b"", tags::PENULTIMATE)),
        mask: byte_of(fields.body(b"\0", tags::MASK)),
    }
}

// Writes the dates of a body over the start of the list.
fn write_closed(body: &[u8], closed: &mut [u32])
    requires { length body.now / 4 ≤ length closed.old }
    ensures { closed.new ≡ over (dates_of (length body.now / 4) body.now) closed.old }
{
    for j in 0..body.len() / 4 {
        closed[j] = numbers::word_at(body, j * 4);
    }
}

#[tactic(auto, unfolding(crate::specs::Format::is_date))]
fn is_date(body: &[u8]) -> bool
    ensures { result ≡ is_date body.now }
{
    body.len() == 4
}

// The request, with its closed dates written over the start of the list.
pub(crate) fn asked_from<B: Bodies>(fields: &B, list: &mut [u32]) -> Result<Decoded, Refusal>
    requires { B.sound fields.now }
    ensures { Decodes (asked_from (length list.old) (B.body_of fields.now)) result list.old list.new }
{
    if !is_date(fields.body(b"", tags::EFFECTIVE))
        || !is_date(fields.body(b"", tags::TERMINATION))
    {
        return Err(Refusal::Request);
    }
    let dates = fields.body(b"", tags::CLOSED);
    let closed = dates.len() / 4;
    if list.len() < closed {
        return Err(Refusal::Room);
    }
    write_closed(dates, list);
    let request = request_from(fields);
    Ok(Decoded { request, closed })
}
