// Requests off the wire: a reader that is fed one part of the bytes at a time, in whatever cuts they come.
#![tactic(auto)]

ghost use Rattle.std.specs.Prelude.{◌≡◌};
ghost use Rattle.feeding.specs.Feed.{fresh, Feeds, Finishes};

use refusal::Refusal;
use request::Decoded;

// The bytes of a part, one after another or in runs.
pub mod reading;
// What the stored bodies ask for.
mod answering;

// What stands between two bytes: what comes next, the tag of the field, its length's high byte, whether all was sound so far
// (1), whether the request was declared finished (1), the bytes of the body still due, how many bytes are stored and how many
// were fed, the length of field 0B, and where the body of each tag starts. Numbers and no enums: C holds a reader as these words.
#[repr(C)]
#[derive(Clone, Copy)]
pub struct State {
    pub phase: u8,
    pub tag: u8,
    pub high: u8,
    pub sound: u8,
    pub finished: u8,
    pub due: u16,
    pub kept: u16,
    pub fed: u16,
    pub size: u16,
    pub places: [u16; 12],
}

// The reader behind a call, and what the call answers.
#[derive(Clone, Copy)]
pub struct Outcome<A> {
    pub state: State,
    pub answer: A,
}

// The state of a new reader, and of one that was reset.
pub fn reset() -> State
    ensures { result ≡ fresh }
{
    State {
        phase: 0,
        tag: 0,
        high: 0,
        sound: 1,
        finished: 0,
        due: 0,
        kept: 0,
        fed: 0,
        size: 0,
        places: [65535; 12],
    }
}

// One part, by value.
pub fn step(
    state: State,
    part: &[u8],
    buffer: &mut [u8],
    closed: &mut [u32],
) -> Outcome<Option<Result<Decoded, Refusal>>>
    ensures { Feeds state part.now buffer.old closed.old result.answer result.state buffer.new closed.new }
{
    if buffer.len() < 20000 {
        return Outcome {
            state,
            answer: Some(Err(Refusal::Buffer)),
        };
    }
    if state.finished == 0 {
        return Outcome {
            state: reading::take_in(state, part, buffer),
            answer: None,
        };
    }
    Outcome {
        state,
        answer: Some(answering::answer(state, buffer, closed)),
    }
}

// The finish, by value.
pub fn close(state: State, buffer: &[u8], closed: &mut [u32]) -> Outcome<Result<Decoded, Refusal>>
    ensures { Finishes state buffer.now closed.old result.answer result.state closed.new }
{
    if buffer.len() < 20000 {
        return Outcome {
            state,
            answer: Err(Refusal::Buffer),
        };
    }
    Outcome {
        state: State {
            finished: 1,
            ..state
        },
        answer: answering::answer(state, buffer, closed),
    }
}

// Takes in a part of the bytes: each byte of a body goes to its place in the buffer. It answers nothing as long as bytes may
// follow. Once the request was declared finished, the part is not read and the finish's answer is repeated.
pub fn feed(
    state: &mut State,
    part: &[u8],
    buffer: &mut [u8],
    closed: &mut [u32],
) -> Option<Result<Decoded, Refusal>>
    ensures { Feeds state.old part.now buffer.old closed.old result state.new buffer.new closed.new }
{
    let out = step(*state, part, buffer, closed);
    *state = out.state;
    out.answer
}

// Declares the request finished, and answers what `request::decode` answers for all that was fed since the last reset, with the
// closed dates written over the start of the lent list.
pub fn finish(state: &mut State, buffer: &[u8], closed: &mut [u32]) -> Result<Decoded, Refusal>
    ensures { Finishes state.old buffer.now closed.old result state.new closed.new }
{
    let out = close(*state, buffer, closed);
    *state = out.state;
    out.answer
}
