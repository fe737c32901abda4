// A night's book.
ghost use Rattle.std.specs.Prelude.{length};
ghost use Rattle.book.specs.Book.{book_of, lists};
ghost use Rattle.booked.specs.Told.{Told};

// Builds up to 64 requests, each led by a two-byte length, each schedule right behind the one before it, and answers how many there
// were. Each has four places of `answers`: count, start, tries, and the refusal's number or 0.
pub fn heronspan_book(
    bytes: &[u8],
    dates: &mut [u32],
    flags: &mut [u8],
    unadjusted: &mut [u32],
    answers: &mut [u32],
) -> i64
    ensures { Told (book_of bytes.now (length dates.old) (length flags.old) (length unadjusted.old) (length answers.old)) result (lists dates.old flags.old unadjusted.old answers.old) (lists dates.new flags.new unadjusted.new answers.new) }
{
    booked::build(bytes, dates, flags, unadjusted, answers)
}
