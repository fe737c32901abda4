// From the bytes of a request to the text of its schedule.
#![tactic(auto)]

ghost use Rattle.std.specs.Prelude.{◌≡◌, ◌≤◌, length};
ghost use Rattle.steps.specs.Entries.{entries_of};
ghost use Rattle.printing.specs.Put.{Put, fitting};
ghost use Rattle.reply.specs.Reply.{built_text, reply_text, Replies, Printed, Zeros};
ghost use Rattle.reply.specs.Shown.{shown_text};

use steps::{Built, Request};

// The text of what was built: its dates, flags and unadjusted dates stand at the start of the lists.
fn print_built(
    built: Built,
    dates: &[u32],
    flags: &[u8],
    unadjusted: &[u32],
    out: &mut [u8],
) -> usize
    requires { (built.count ≤ length dates.now) × (built.count ≤ length unadjusted.now) }
    ensures { Put (fitting (shown_text built dates.now flags.now unadjusted.now) (length out.old)) 0 out.old result out.new }
{
    let number = built.number;
    if number != 0 {
        return printing::refusal(number, out);
    }
    let count = built.count as usize;
    printing::schedule(
        built.tries,
        &dates[..count],
        flags,
        &unadjusted[..count],
        out,
    )
}

// Builds in lists of 4,096 places, the flags all 0, and puts the text.
fn reply(
    q: Request,
    closed: &[u32],
    dates: &mut [u32],
    flags: &mut [u8],
    unadjusted: &mut [u32],
    out: &mut [u8],
) -> usize
    requires dates_len { (length dates.old ≡ 4096) × (length flags.old ≡ 4096) × (length unadjusted.old ≡ 4096) }
    requires zeros { Zeros flags.old }
    ensures { Replies (built_text (entries_of q closed.now 4096 4096 4096)) out.old result out.new }
{
    let built = schedule::build(q, closed, dates, flags, unadjusted);
    print_built(built, dates, flags, unadjusted, out)
}

fn serve(
    input: &[u8],
    closed: &mut [u32],
    dates: &mut [u32],
    flags: &mut [u8],
    unadjusted: &mut [u32],
    out: &mut [u8],
) -> usize
    requires closed_len { (length closed.old ≡ 4096) × (length dates.old ≡ 4096) × (length flags.old ≡ 4096) × (length unadjusted.old ≡ 4096) }
    requires zeros { Zeros flags.old }
    ensures { Replies (reply_text input.now) out.old result out.new }
{
    match request::decode(input, closed) {
        Err(refusal) => printing::refusal(refusal.number(), out),
        Ok(asked) => reply(
            asked.request,
            &closed[..asked.closed],
            dates,
            flags,
            unadjusted,
            out,
        ),
    }
}

// The text of the schedule that the bytes ask for, or of their refusal, put at the start of what is lent, and how many bytes it
// has; where it does not fit, 0 and nothing. 106,519 bytes hold every text.
pub fn answer(input: &[u8], out: &mut [u8]) -> usize
    ensures { Replies (reply_text input.now) out.old result out.new }
{
    let mut closed = [0u32; 4096];
    let mut dates = [0u32; 4096];
    let mut flags = [0u8; 4096];
    let mut unadjusted = [0u32; 4096];
    serve(
        input,
        &mut closed,
        &mut dates,
        &mut flags,
        &mut unadjusted,
        out,
    )
}

// The same, in as many bytes as every text has room in: the text is put whole.
pub fn whole(input: &[u8], text: &mut [u8; 106519]) -> usize
    ensures { Printed (reply_text input.now) text.old result text.new }
{
    answer(input, text)
}
