// A closed list as a calendar file (RFC 5545).
#![tactic(auto)]

ghost use Rattle.std.specs.Prelude.{◌≡◌, true, ◌+◌, ◌*◌, ◌≤◌, length};
ghost use Rattle.calendar.specs.Open.{closed_ok};
ghost use Rattle.publishing.specs.File.{runs_of, file_of};
ghost use Rattle.publishing.specs.Inner.Put.{Put};
ghost use Rattle.publishing.specs.Promise.{Exports};

use calendar::closed_dates;
use puts::put_bytes;
use refusal::Refusal;

// Bytes put at a place of a lent list, one after the other.
mod puts;
// Events, one for each run of days.
mod events;

fn put_file(list: &[u32], file: &mut [u8]) -> usize
    requires list_value { closed_ok list.now ≡ true }
    requires list_in_bounds { 132 * length (runs_of list.now) + 70 ≤ length file.old }
    ensures { Put (file_of list.now) 0 file.old result file.new }
{
    let first = put_bytes(
        b"BEGIN:VCALENDAR\r\nVERSION:2.0\r\nPRODID:-//Heronspan//EN\r\n",
        0,
        file,
    );
    let last = events::put_events(list, first, file);
    put_bytes(b"END:VCALENDAR\r\n", last, file)
}

/// The closed dates as a calendar file, which the import reads back; answers how many bytes it has. It is written on success alone.
pub fn export(list: &[u32], file: &mut [u8]) -> Result<u32, Refusal>
    ensures { Exports list.now file.old result file.new }
{
    if !closed_dates::keep_rule(list) {
        return Err(Refusal::Calendar);
    }
    let runs = events::count_runs(list);
    if 495 < runs {
        return Err(Refusal::Ical);
    }
    if file.len() < 132 * runs + 70 {
        return Err(Refusal::Room);
    }
    let size = put_file(list, file);
    Ok(size as u32)
}
