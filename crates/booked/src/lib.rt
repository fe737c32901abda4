// A night's book whose answer is one number, for other languages.
#![tactic(auto)]

ghost use Rattle.std.specs.Prelude.{length};
ghost use Rattle.book.specs.Book.{book_of, lists};
ghost use Rattle.booked.specs.Told.{Told};

use crossing::answers::one_number;

// Builds the requests of a book (`book::build`): how many there were, or minus the refusal of the whole call.
pub fn build(
    bytes: &[u8],
    dates: &mut [u32],
    flags: &mut [u8],
    unadjusted: &mut [u32],
    answers: &mut [u32],
) -> i64
    ensures { Told (book_of bytes.now (length dates.old) (length flags.old) (length unadjusted.old) (length answers.old)) result (lists dates.old flags.old unadjusted.old answers.old) (lists dates.new flags.new unadjusted.new answers.new) }
{
    one_number(book::build(bytes, dates, flags, unadjusted, answers))
}
