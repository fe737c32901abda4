// A reader for other languages: the answer of a feed as one number, and the request, where it was found, in thirteen.
#![tactic(auto)]

ghost use Rattle.std.specs.Prelude.{◌≡◌};
ghost use Rattle.crossing.specs.Answers.{yes};
ghost use Rattle.fed.specs.Handed.{few, numbers_of, decoded_number, number_of, decoded_words, said_words, Renewed, Stepped, Fed, Ended};

use crossing::answers;
use period::sign;
use refusal::Refusal;
use request::Decoded;
use steps::{moves, rules};

// The reader's words.
mod words;

#[tactic(auto, unfolding(crossing::specs::Answers::yes))]
fn flag(b: bool) -> u32
    ensures { result ≡ yes b }
{
    b as u32
}

// A count; no request has more than 4,096 closed dates.
#[tactic(auto, unfolding(crate::specs::Handed::few, request::specs::Format::pick))]
fn counted(n: usize) -> u32
    ensures { result ≡ few n }
{
    n.min(65536) as u32
}

fn numbers_of(decoded: &Decoded) -> [u32; 13]
    ensures { result ≡ numbers_of decoded.now.request decoded.now.closed }
{
    let q = &decoded.request;
    [
        q.effective.day,
        q.termination.day,
        sign::size(q.tenor.length),
        flag(sign::is_negative(q.tenor.length)),
        crossing::unit_number(q.tenor.unit),
        rules::rule_number(q.rule) as u32,
        moves::convention_number(q.convention) as u32,
        moves::convention_number(q.terminal) as u32,
        flag(q.monthend),
        q.first.day,
        q.penultimate.day,
        q.mask as u32,
        counted(decoded.closed),
    ]
}

// 1 where the request was found, or minus the number of the refusal.
#[tactic(auto, unfolding(crate::specs::Handed::decoded_number))]
fn decoded_number(answer: &Result<Decoded, Refusal>) -> i64
    ensures { result ≡ decoded_number answer.now }
{
    match answer {
        Ok(_) => 1,
        Err(refusal) => answers::refused(*refusal),
    }
}

// The same, or 0 to go on.
#[tactic(auto, unfolding(crate::specs::Handed::number_of))]
fn number_of(said: &Option<Result<Decoded, Refusal>>) -> i64
    ensures { result ≡ number_of said.now }
{
    match said {
        None => 0,
        Some(answer) => decoded_number(answer),
    }
}

#[tactic(auto, unfolding(crate::specs::Handed::decoded_words))]
fn put_decoded(answer: &Result<Decoded, Refusal>, words: &mut [u16; 46])
    ensures { words.new ≡ decoded_words answer.now words.old }
{
    if let Ok(decoded) = answer {
        words::put_numbers(numbers_of(decoded), words);
    }
}

#[tactic(auto, unfolding(crate::specs::Handed::said_words))]
fn put_said(said: &Option<Result<Decoded, Refusal>>, words: &mut [u16; 46])
    ensures { words.new ≡ said_words said.now words.old }
{
    if let Some(answer) = said {
        put_decoded(answer, words);
    }
}

// A new reader, whatever it was.
pub fn reset(words: &mut [u16; 46]) -> i64
    ensures { Renewed words.old result words.new }
{
    words::clear(words);
    words::put_state(feeding::reset(), words);
    0
}

// Any part, by the step that takes the state by value. The part is named by its two ends, so that the compiler has the caller hand it
// over in registers.
fn feed_any(words: &mut [u16; 46], part: &[u8], buffer: &mut [u8], closed: &mut [u32]) -> i64
    ensures { Stepped words.old part.now buffer.old closed.old result words.new buffer.new closed.new }
{
    if buffer.len() < 20000 {
        return answers::refused(Refusal::Buffer);
    }
    let state = words::state_in(words);
    let out = feeding::step(state, &part[0..part.len()], buffer, closed);
    put_said(&out.answer, words);
    words::put_state(out.state, words);
    number_of(&out.answer)
}

// A part; one byte in the midst of a body is put to its place at once. `feed_any` has its own test of the buffer: called twice, it stays
// a call, and such a byte does not pay for its frame.
pub fn feed(words: &mut [u16; 46], part: &[u8], buffer: &mut [u8], closed: &mut [u32]) -> i64
    ensures { Fed words.old part.now buffer.old closed.old result words.new buffer.new closed.new }
{
    if buffer.len() < 20000 {
        return feed_any(words, part, buffer, closed);
    }
    if words::runs(words, part.len()) {
        words::run(words, part[0], buffer);
        return 0;
    }
    feed_any(words, part, buffer, closed)
}

pub fn finish(words: &mut [u16; 46], buffer: &[u8], closed: &mut [u32]) -> i64
    ensures { Ended words.old buffer.now closed.old result words.new closed.new }
{
    if buffer.len() < 20000 {
        return answers::refused(Refusal::Buffer);
    }
    let state = words::state_in(words);
    let out = feeding::close(state, buffer, closed);
    put_decoded(&out.answer, words);
    words::put_state(out.state, words);
    decoded_number(&out.answer)
}
