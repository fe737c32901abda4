// A single call, from the bytes of a request, in working lists that hold anything.
ghost use Rattle.std.specs.Prelude.{length};
ghost use Rattle.book.specs.Book.{call_of};
ghost use Rattle.book.specs.Inner.Calls.{Calls};

use steps::Built;

// The working lists of a build. They may hold anything.
#[derive(Drop)]
pub(crate) struct Working {
    pub work: [u32; 4096],
    pub paid: [u32; 4096],
    pub marks: [u8; 4096],
}

// Builds what a request's bytes ask for; its closed dates are read into `closed`.
pub(crate) fn call(
    bytes: &[u8],
    closed: &mut [u32; 4096],
    working: &mut Working,
    dates: &mut [u32],
    flags: &mut [u8],
    unadjusted: &mut [u32],
) -> Built
    ensures { Calls (call_of bytes.now (length dates.old) (length flags.old) (length unadjusted.old)) result dates.old flags.old unadjusted.old dates.new flags.new unadjusted.new }
{
    match request::decode(bytes, closed) {
        Ok(asked) => schedule::build_in(
            asked.request,
            &closed[0..asked.closed],
            &mut working.work,
            &mut working.paid,
            &mut working.marks,
            dates,
            flags,
            unadjusted,
        ),
        Err(refusal) => steps::refused(refusal.number()),
    }
}
