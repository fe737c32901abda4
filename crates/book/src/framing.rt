// How a book is parted: a two-byte length, high byte first, leads each request.
ghost use Rattle.std.specs.Prelude.{◌≡◌, MatchOption};
ghost use Rattle.refusal.specs.Answer.{answered};
ghost use Rattle.book.specs.Framing.{requests_in};
ghost use Rattle.book.specs.Book.{counted};
ghost use Rattle.book.specs.Inner.Framed.{Cut, Leads};

use refusal::Refusal;

// The request that leads the bytes, and what is behind it; none where it is cut short.
pub(crate) fn split_request(bytes: &[u8]) -> Option<(&[u8], &[u8])>
    ensures { MatchOption result (Cut bytes.now) (λ p. Leads bytes.now p.0.now p.1.now) }
{
    let (size, rest) = bytes.split_first_chunk::<2>()?;
    let size = u16::from_be_bytes(*size) as usize;
    rest.split_at_checked(size)
}

// The requests to the very end, counted: no more than 64, and none cut short. A `while`, since the bytes say where the next one begins.
pub(crate) fn requests(bytes: &[u8]) -> Result<u32, Refusal>
    ensures { answered result ≡ counted (requests_in bytes.now) }
{
    let mut n: u32 = 0;
    let mut rest = bytes;
    while !rest.is_empty() {
        if n == 64 {
            return Err(Refusal::Batch);
        }
        match split_request(rest) {
            Some((_, behind)) => rest = behind,
            None => return Err(Refusal::Batch),
        }
        n += 1;
    }
    Ok(n)
}
