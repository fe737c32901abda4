// The fields of a request: each a tag, a two-byte length and a body, up to FF.
ghost use Rattle.std.specs.Prelude.{◌≤◌, length};
ghost use Rattle.request.specs.Inner.Places.{Steps, Blank, ReadsAs};

use crate::{bodies, numbers, tags};

// What stands next: a field with its tag and the length of its body, FF at the very end, or neither. An enum of its own: an Option in an
// Option says the three no more plainly.
#[derive(Drop)]
pub(crate) enum Step {
    Broken,
    End,
    Next(u8, usize),
}

fn next_field(bytes: &[u8], at: usize, last: u8) -> Step
    requires { at ≤ length bytes.now }
    ensures { Steps bytes.now at last result }
{
    let left = bytes.len() - at;
    if left < 3 {
        return Step::Broken;
    }
    let n = numbers::pair_at(bytes, at + 1) as usize;
    if left - 3 < n {
        return Step::Broken;
    }
    let tag = bytes[at];
    if tag <= last {
        return Step::Broken;
    }
    if tag == tags::END {
        if left == 3 {
            return Step::End;
        }
        return Step::Broken;
    }
    let from = at + 3;
    if bodies::body_ok(tag, &bytes[from..from + n]) {
        return Step::Next(tag, n);
    }
    Step::Broken
}

// Finds where each field's body starts; whether the bytes are fields up to FF.
pub(crate) fn find(bytes: &[u8], places: &mut [usize]) -> bool
    requires { Blank places.old }
    ensures { ReadsAs bytes.now result places.new }
{
    let mut at = 0;
    let mut last = 0;
    loop {
        match next_field(bytes, at, last) {
            Step::Broken => {
                return false;
            }
            Step::End => {
                return true;
            }
            Step::Next(tag, n) => {
                places[tag as usize] = at + 3;
                at = at + 3 + n;
                last = tag;
            }
        }
    }
}
