// A night's book: up to 64 requests, each led by a two-byte length, built one after another into one lent set of lists.
#![tactic(auto)]

ghost use Rattle.std.specs.Prelude.{◌≡◌, length};
ghost use Rattle.book.specs.Book.{book_of, lists, Books};

use refusal::Refusal;

// How many requests the bytes hold.
mod framing;
// A single call, from a request's bytes.
mod calls;
// The requests in turn.
mod turns;

// Builds the requests of a book, each schedule right behind the one before it, and puts four numbers a request into the start of
// `answers`: count, start, tries, and the refusal's number or 0. A refused request takes no room and stops nothing. 1 and then 20 refuse
// the whole book, and leave every list as it was. Answers how many requests there were, refused ones among them.
pub fn build(
    bytes: &[u8],
    dates: &mut [u32],
    flags: &mut [u8],
    unadjusted: &mut [u32],
    answers: &mut [u32],
) -> Result<u32, Refusal>
    ensures { Books (book_of bytes.now (length dates.old) (length flags.old) (length unadjusted.old) (length answers.old)) result (lists dates.old flags.old unadjusted.old answers.old) (lists dates.new flags.new unadjusted.new answers.new) }
{
    if dates.len() != flags.len() {
        return Err(Refusal::Uneven);
    }
    if dates.len() != unadjusted.len() {
        return Err(Refusal::Uneven);
    }
    let n = framing::requests(bytes)?;
    if answers.len() / 4 < n as usize {
        return Err(Refusal::Batch);
    }
    turns::take_turns(bytes, dates, flags, unadjusted, answers);
    Ok(n)
}
