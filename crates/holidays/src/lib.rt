// Holidays from calendar files (RFC 5545): the days of a file's all-day events as a closed list.
#![tactic(auto)]

ghost use Rattle.std.specs.Prelude.{◌≡◌};
ghost use Rattle.holidays.specs.Import.{size_ok};
ghost use Rattle.holidays.specs.Promise.{Imports};

use refusal::Refusal;

// Unfolded lines.
mod lines;
// Words of a line.
mod words;
// DTSTART and DTEND.
mod dates;
// Days as bits.
mod days;
// Parameters and values.
mod parameters;
// Open parts.
mod parts;
// Events.
mod events;
// One line after the other.
mod turns;
// All lines.
mod walk;

// Whether a file of `n` bytes is neither empty nor over 64 KiB.
fn is_size(n: usize) -> bool
    ensures { result ≡ size_ok n }
{
    1 <= n && n <= 65536
}

/// Why a file is refused, and the number of its line that is; 0 for the whole file.
#[derive(Clone, Copy, Debug, PartialEq, Eq)]
pub struct Fault {
    pub refusal: Refusal,
    pub line: u32,
}

/// The days of a calendar file as a closed list, ascending; answers how many. The list is written on success alone.
#[tactic(auto, using(crate::proofs::ImportWays::imports))]
pub fn import(file: &[u8], list: &mut [u32]) -> Result<u32, Fault>
    ensures { Imports file.now list.old result list.new }
{
    if !is_size(file.len()) {
        return Err(Fault {
            refusal: Refusal::Ical,
            line: 0,
        });
    }
    let mut stack = [0u32; 10923];
    let mut map = [0u32; 6849];
    let count = walk::read_file(file, list.len(), &mut stack, &mut map)?;
    days::write_days(&map, list);
    Ok(count)
}
