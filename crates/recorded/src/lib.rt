// A build and its record in seven numbers: the refusal's number or 0, the count of dates, the tries, the rule in force, the size and the
// unit of the tenor in force, and how far the dates moved at most.
#![tactic(auto)]

ghost use Rattle.std.specs.Prelude.{◌≡◌, ◌≤◌, length};
ghost use Rattle.steps.specs.Build.{over};
ghost use Rattle.refusal.specs.Answer.{answered_by};
ghost use Rattle.request.specs.Format.{decoded};
ghost use Rattle.recorded.specs.Bytes.{request_in, closed_in};
ghost use Rattle.recorded.specs.Builds.{record_numbers, count_in, Reported};

use crossing::answers;
use period::sign;
use refusal::{Refusal, Refuses};
use steps::{Built, Request, rules};

fn put_record(b: Built, answer: &mut [u32])
    requires { 7 ≤ length answer.old }
    ensures { answer.new ≡ over (record_numbers b) answer.old }
{
    let numbers = [
        b.number as u32,
        b.count,
        b.tries,
        rules::rule_number(b.rule) as u32,
        sign::size(b.tenor.length),
        crossing::unit_number(b.tenor.unit),
        b.moved,
    ];
    answer[..7].copy_from_slice(&numbers);
}

#[tactic(auto, unfolding(crate::specs::Builds::count_in))]
fn count_in(b: Built) -> i64
    ensures { result ≡ count_in b }
{
    if b.number == 0 {
        return i64::from(b.count);
    }
    answers::minus(b.number)
}

fn report(b: Built, answer: &mut [u32]) -> i64
    requires { 7 ≤ length answer.old }
    ensures { (result ≡ count_in b) × (answer.new ≡ over (record_numbers b) answer.old) }
{
    put_record(b, answer);
    count_in(b)
}

// Builds what was asked for, where a refusal is any number, and puts the record of it into the start of `answer`.
fn told(
    request: Result<Request, u8>,
    closed: &[u32],
    dates: &mut [u32],
    flags: &mut [u8],
    unadjusted: &mut [u32],
    answer: &mut [u32],
) -> i64
    ensures { Reported (answered_by (λ n. n) request) closed.now result dates.old flags.old unadjusted.old answer.old dates.new flags.new unadjusted.new answer.new }
{
    if answer.len() < 7 {
        return answers::refused(Refusal::Room);
    }
    match request {
        Ok(q) => {
            let built = schedule::build(q, closed, dates, flags, unadjusted);
            report(built, answer)
        }
        Err(number) => report(steps::refused(number), answer),
    }
}

// Builds what was asked for, and puts the record of it into the start of `answer`.
pub fn build<E: Refuses>(
    request: Result<Request, E>,
    closed: &[u32],
    dates: &mut [u32],
    flags: &mut [u8],
    unadjusted: &mut [u32],
    answer: &mut [u32],
) -> i64
    ensures { Reported (answered_by E.numbered request) closed.now result dates.old flags.old unadjusted.old answer.old dates.new flags.new unadjusted.new answer.new }
{
    let request = request.map_err(|refusal| refusal.number());
    told(request, closed, dates, flags, unadjusted, answer)
}

// Builds what the bytes ask for; their closed dates are read into `closed`.
fn build_read(
    bytes: &[u8],
    closed: &mut [u32],
    dates: &mut [u32],
    flags: &mut [u8],
    unadjusted: &mut [u32],
    answer: &mut [u32],
) -> i64
    ensures { Reported (request_in (decoded bytes.now (length closed.old))) (closed_in (decoded bytes.now (length closed.old))) result dates.old flags.old unadjusted.old answer.old dates.new flags.new unadjusted.new answer.new }
{
    match request::decode(bytes, closed) {
        Ok(read) => {
            let count = read.closed;
            told(
                Ok(read.request),
                &closed[0..count],
                dates,
                flags,
                unadjusted,
                answer,
            )
        }
        Err(refusal) => told(
            Err(refusal.number()),
            closed,
            dates,
            flags,
            unadjusted,
            answer,
        ),
    }
}

// Builds what the bytes ask for, and puts the record of it into the start of `answer`.
pub fn build_bytes(
    bytes: &[u8],
    dates: &mut [u32],
    flags: &mut [u8],
    unadjusted: &mut [u32],
    answer: &mut [u32],
) -> i64
    ensures { Reported (request_in (decoded bytes.now 4096)) (closed_in (decoded bytes.now 4096)) result dates.old flags.old unadjusted.old answer.old dates.new flags.new unadjusted.new answer.new }
{
    let mut closed = [0u32; 4096];
    build_read(bytes, &mut closed, dates, flags, unadjusted, answer)
}
