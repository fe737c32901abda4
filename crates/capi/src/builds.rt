// Schedules, from a request in numbers. C hands a request over field by field, so that its functions here have more than eight
// parameters.
ghost use Rattle.std.specs.Prelude.{◌≡◌};
ghost use Rattle.refusal.specs.Answer.{answered, then};
ghost use Rattle.coming.specs.Coming.{coming_of, meant};
ghost use Rattle.crossing.specs.Answers.{one_number_of, marked};
ghost use Rattle.request.specs.Format.{decoded};
ghost use Rattle.recorded.specs.Bytes.{request_in, closed_in};
ghost use Rattle.crossing.specs.Requests.{request_of};
ghost use Rattle.recorded.specs.Builds.{Reported};

use coming::Coming;
use crossing::answers::one_number;
use crossing::requests;
use date::Date;
use refusal::Refusal;
use steps::Request;

// Builds a schedule: the dates into the start of `dates`, the flags of the periods between them (1 regular) into the start
// of `flags`, each date's unadjusted one into the start of `unadjusted`, and the count of dates is answered. The start of `answer` then holds the refusal's number or 0, the count of
// dates, the tries, the rule in force, and the size and the unit of the tenor in force.
pub fn heronspan_build(
    effective: u32,
    termination: u32,
    tenor: i32,
    unit: u8,
    rule: u8,
    convention: u8,
    terminal: u8,
    monthend: u8,
    first: u32,
    penultimate: u32,
    mask: u8,
    closed: &[u32],
    dates: &mut [u32],
    flags: &mut [u8],
    unadjusted: &mut [u32],
    answer: &mut [u32],
) -> i64
    ensures { Reported (request_of effective termination tenor unit rule convention terminal monthend first penultimate mask) closed.now result dates.old flags.old unadjusted.old answer.old dates.new flags.new unadjusted.new answer.new }
{
    let request = requests::request_of(
        effective,
        termination,
        tenor,
        unit,
        rule,
        convention,
        terminal,
        monthend,
        first,
        penultimate,
        mask,
    );
    recorded::build(request, closed, dates, flags, unadjusted, answer)
}

// The same as `heronspan_build`, from the bytes of a request.
pub fn heronspan_build_bytes(
    bytes: &[u8],
    dates: &mut [u32],
    flags: &mut [u8],
    unadjusted: &mut [u32],
    answer: &mut [u32],
) -> i64
    ensures { Reported (request_in (decoded bytes.now 4096)) (closed_in (decoded bytes.now 4096)) result dates.old flags.old unadjusted.old answer.old dates.new flags.new unadjusted.new answer.new }
{
    recorded::build_bytes(bytes, dates, flags, unadjusted, answer)
}

#[tactic(auto, unfolding(refusal::specs::Answer::then, coming::specs::Coming::meant))]
fn after(request: Result<Request, Refusal>, closed: &[u32], asked: u32) -> Result<Coming, Refusal>
    ensures { meant result ≡ then (answered request) (λ q. coming_of q closed.now asked) }
{
    coming::after(request?, closed, Date { day: asked })
}

// The first date after the asked day of the schedule of a request in numbers, without the schedule: 0 where there is no later
// date, else the day times 4, and 0 where the period that it ends is irregular, 1 where it is regular, 2 where it ends none.
pub fn heronspan_coming(
    effective: u32,
    termination: u32,
    tenor: i32,
    unit: u8,
    rule: u8,
    convention: u8,
    terminal: u8,
    monthend: u8,
    first: u32,
    penultimate: u32,
    mask: u8,
    closed: &[u32],
    asked: u32,
) -> i64
    ensures { result ≡ one_number_of marked (then (request_of effective termination tenor unit rule convention terminal monthend first penultimate mask) (λ q. coming_of q closed.now asked)) }
{
    let request = requests::request_of(
        effective,
        termination,
        tenor,
        unit,
        rule,
        convention,
        terminal,
        monthend,
        first,
        penultimate,
        mask,
    );
    one_number(after(request, closed, asked))
}
