// Runs of days that follow one another, and an event for each.
ghost use Rattle.std.specs.Prelude.{◌≡◌, true, ◌+◌, ◌*◌, ◌≤◌, length};
ghost use Rattle.calendar.specs.Open.{closed_ok};
ghost use Rattle.publishing.specs.File.{runs_of, event_lines, all_events, written};
ghost use Rattle.publishing.specs.Inner.Put.{Put};

use crate::puts::{put_bytes, put_date};

// How many runs there are: one more for each day that isn't the next one.
#[tactic(auto, using(crate::proofs::Runs::counts))]
pub(crate) fn count_runs(list: &[u32]) -> usize
    requires { closed_ok list.now ≡ true }
    ensures { result ≡ length (runs_of list.now) }
{
    if list.is_empty() {
        return 0;
    }
    let mut runs = 1;
    let mut past = list[0] + 1;
    for i in 1..list.len() {
        let day = list[i];
        if day != past {
            runs += 1;
        }
        past = day + 1;
    }
    runs
}

fn put_event(first: u32, past: u32, at: usize, out: &mut [u8]) -> usize
    requires { at + 132 ≤ length out.old }
    ensures { Put (written (event_lines (record { first = first; past = past }))) at out.old result out.new }
{
    let uid = put_bytes(b"BEGIN:VEVENT\r\nUID:", at, out);
    let stamp = put_date(first, uid, out);
    let start = put_bytes(
        b"@heronspan\r\nDTSTAMP:19700101T000000Z\r\nDTSTART;VALUE=DATE:",
        stamp,
        out,
    );
    let end = put_date(first, start, out);
    let stop = put_bytes(b"\r\nDTEND;VALUE=DATE:", end, out);
    let last = put_date(past, stop, out);
    put_bytes(b"\r\nEND:VEVENT\r\n", last, out)
}

// An event for each run, put as soon as a day starts another one.
#[tactic(auto, using(crate::proofs::Runs::layings))]
pub(crate) fn put_events(list: &[u32], at: usize, out: &mut [u8]) -> usize
    requires list_value { closed_ok list.now ≡ true }
    requires list_in_bounds { at + 132 * length (runs_of list.now) ≤ length out.old }
    ensures { Put (written (all_events (runs_of list.now))) at out.old result out.new }
{
    if list.is_empty() {
        return at;
    }
    let mut first = list[0];
    let mut past = first + 1;
    let mut next = at;
    for i in 1..list.len() {
        let day = list[i];
        if day != past {
            next = put_event(first, past, next, out);
            first = day;
        }
        past = day + 1;
    }
    put_event(first, past, next, out)
}
