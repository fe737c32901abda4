// The requests of a book in turn, in working lists that are made once.
ghost use Rattle.std.specs.Prelude.{◌≡◌, ◌≤◌, length};
ghost use Rattle.book.specs.Framing.{requests_in};
ghost use Rattle.book.specs.Book.{lists, lists_after};
ghost use Rattle.book.specs.Inner.Turns.{Puts, Fits, Turned, Ready};

use crate::calls::Working;
use crate::{calls, framing};
use steps::Built;

// Puts count, start, tries and number, and answers how many places the request takes.
fn put_answer(built: Built, start: u32, answers: &mut [u32]) -> usize
    requires { 4 ≤ length answers.old }
    ensures { Puts built start result answers.old answers.new }
{
    if built.number != 0 {
        answers[0] = 0;
        answers[1] = 0;
        answers[2] = 0;
        answers[3] = built.number as u32;
        return 0;
    }
    answers[0] = built.count;
    answers[1] = start;
    answers[2] = built.tries;
    answers[3] = 0;
    built.count as usize
}

// Request i: its schedule goes into the parts of the lists from the start on, its answer into place i. The four lists stand beside each
// other: of a struct that holds them, lent to a call, a proof does not know that it still holds the same ones afterwards.
fn turn(
    bytes: &[u8],
    i: usize,
    start: usize,
    closed: &mut [u32; 4096],
    working: &mut Working,
    dates: &mut [u32],
    flags: &mut [u8],
    unadjusted: &mut [u32],
    answers: &mut [u32],
) -> usize
    requires { Fits i start (lists dates.old flags.old unadjusted.old answers.old) }
    ensures { Turned bytes.now i start result (lists dates.old flags.old unadjusted.old answers.old) (lists dates.new flags.new unadjusted.new answers.new) }
{
    let built = calls::call(
        bytes,
        closed,
        working,
        &mut dates[start..],
        &mut flags[start..],
        &mut unadjusted[start..],
    );
    let place = 4 * i;
    put_answer(built, start as u32, &mut answers[place..])
}

// The requests in turn, each on what the ones before it left: a `while` to the end of the bytes, in which `i` counts the answers.
pub(crate) fn take_turns(
    bytes: &[u8],
    dates: &mut [u32],
    flags: &mut [u8],
    unadjusted: &mut [u32],
    answers: &mut [u32],
)
    requires { Ready bytes.now (lists dates.old flags.old unadjusted.old answers.old) }
    ensures { lists dates.new flags.new unadjusted.new answers.new ≡ lists_after (requests_in bytes.now) (lists dates.old flags.old unadjusted.old answers.old) }
{
    let mut closed = [0u32; 4096];
    let mut working = Working {
        work: [0; 4096],
        paid: [0; 4096],
        marks: [0; 4096],
    };
    let mut i: usize = 0;
    let mut start: usize = 0;
    let mut rest = bytes;
    while let Some((request, behind)) = framing::split_request(rest) {
        let count = turn(
            request,
            i,
            start,
            &mut closed,
            &mut working,
            dates,
            flags,
            unadjusted,
            answers,
        );
        start += count;
        rest = behind;
        i += 1;
    }
}
