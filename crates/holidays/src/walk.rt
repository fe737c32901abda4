// The lines of a file, one after the other.
ghost use Rattle.holidays.specs.Inner.Along.{Before, ahead};
ghost use Rattle.holidays.specs.Inner.Turns.{Keeps};
ghost use Rattle.holidays.specs.Inner.Walking.{Advances, Lined, Finishes, Walking, Walks, Starts};
ghost use Rattle.holidays.specs.Inner.Days.{WORDS};
ghost use Rattle.holidays.specs.Import.{size_ok};
ghost use Rattle.holidays.specs.Nesting.{is_blank};
ghost use Rattle.std.specs.Prelude.{length, ◌≡◌, true, false, not, ◌||◌};

use crate::lines::Place;
use crate::turns::State;
use crate::{Fault, lines, turns};
use refusal::Refusal;

// The same state at the next line.
#[tactic(auto, using(crate::proofs::WalkWays::advancing))]
fn advance(file: &[u8], s: State) -> State
    requires { Before file.now s.place.at s.place.line }
    ensures { Advances file.now s result }
{
    State {
        place: lines::skip(file, s.place),
        ..s
    }
}

// One line, blank or not, and on to the next.
#[tactic(auto, using(crate::proofs::WalkWays::line_ways))]
fn one_line(
    file: &[u8],
    st: State,
    blank: bool,
    stack: &mut [u32],
    room: usize,
    map: &mut [u32],
) -> Result<State, Refusal>
    requires before { Before file.now st.place.at st.place.line }
    requires blank_value { blank ≡ is_blank (ahead file.now st.place.at st.place.line) }
    requires keeps { Keeps file.now stack.old room map.old st }
    ensures { Lined file.now st stack.old room map.old result stack.new map.new }
{
    if blank {
        return Ok(advance(file, st));
    }
    let s = turns::take_turn(file, st, stack, room, map)?;
    Ok(advance(file, s))
}

// What stands at the end of the file, behind a last line that starts at `line`.
#[tactic(auto, using(crate::proofs::WalkWays::finish_ways))]
fn finish(depth: usize, seen: bool, line: u32, count: u32) -> Result<u32, Fault>
    ensures { Finishes depth seen line count result }
{
    if depth == 0 && seen {
        return Ok(count);
    }
    Err(Fault {
        refusal: Refusal::Ical,
        line,
    })
}

// From a line's start to the end of the file.
#[tactic(auto, using(crate::proofs::WalkWays::walk_ways))]
pub(crate) fn read_lines(
    file: &[u8],
    first: State,
    stack: &mut [u32],
    room: usize,
    map: &mut [u32],
) -> Result<u32, Fault>
    requires { Walking file.now room stack.old map.old first false }
    ensures { Walks file.now room result map.new }
{
    let mut st = first;
    let mut seen = false;
    loop {
        let line = st.place.line;
        let blank = lines::is_over(file, st.place);
        match one_line(file, st, blank, stack, room, map) {
            Err(refusal) => {
                return Err(Fault { refusal, line });
            }
            Ok(s) => {
                seen = saw(seen, blank);
                if s.place.at == file.len() {
                    return finish(s.depth, seen, line, s.count);
                }
                st = s;
            }
        }
    }
}

#[tactic(auto, using(crate::proofs::WalkWays::finish_ways))]
fn saw(seen: bool, blank: bool) -> bool
    ensures { result ≡ (seen || not blank) }
{
    seen || !blank
}

// Where the file starts: behind a mark of byte order.
#[tactic(auto, using(crate::proofs::WalkWays::start_ways))]
fn start_of(file: &[u8]) -> usize
    ensures { Starts file.now result }
{
    if file.starts_with(&[239, 187, 191]) {
        return 3;
    }
    0
}

// A file of 1 to 65,536 bytes; the stack and the map may hold anything before.
#[tactic(auto, using(crate::proofs::WalkWays::file_ways))]
pub(crate) fn read_file(
    file: &[u8],
    room: usize,
    stack: &mut [u32],
    map: &mut [u32],
) -> Result<u32, Fault>
    requires file_value { size_ok (length file.now) ≡ true }
    requires stack_len { length stack.old ≡ 10923 }
    requires map_len { length map.old ≡ WORDS }
    ensures { Walks file.now room result map.new }
{
    map.fill(0);
    let first = State {
        place: Place {
            at: start_of(file),
            line: 1,
        },
        depth: 0,
        event: false,
        start: None,
        stop: None,
        count: 0,
    };
    read_lines(file, first, stack, room, map)
}
