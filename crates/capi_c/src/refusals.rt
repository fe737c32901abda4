// The names of the refusals, for callers that have no header.
ghost use Rattle.crossing.specs.Names.{name_of, Spelled};

// Writes the name of the refusal that an answer below zero gives, BOOK for one, over the start of `text`, and answers how many
// bytes it has. Every other answer has the empty name. A name that does not fit is 14, and nothing is written.
#[unsafe(no_mangle)]
pub extern "C" fn heronspan_refusal_text(answer: i64, text: &mut [u8]) -> i64
    ensures { Spelled (name_of answer) result text.old text.new }
{
    capi::refusals::heronspan_refusal_text(answer, text)
}
