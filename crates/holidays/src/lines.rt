// Unfolded lines, read byte by byte where they stand in the file.
ghost use Rattle.std.specs.Prelude.{◌≡◌, drop};
ghost use Rattle.holidays.specs.Lines.{starts_with};
ghost use Rattle.holidays.specs.Inner.Cut.{folds};
ghost use Rattle.holidays.specs.Nesting.{is_blank};
ghost use Rattle.holidays.specs.Inner.Along.{ahead, Before, Steps, Skipping, Clears, Skipped};

// A place in the file, and the number of the physical line there.
#[derive(Clone, Copy)]
pub(crate) struct Place {
    pub(crate) at: usize,
    pub(crate) line: u32,
}

// Whether a blank or a tab stands there.
#[tactic(auto, using(crate::proofs::LineWays::skips))]
fn is_fold(file: &[u8], at: usize) -> bool
    ensures { result ≡ folds (drop at file.now) }
{
    if at < file.len() {
        return file[at] == 32 || file[at] == 9;
    }
    false
}

// Whether a line feed stands there.
#[tactic(auto, using(crate::proofs::LineWays::nexts))]
fn is_feed(file: &[u8], at: usize) -> bool
    ensures { result ≡ starts_with 10 (drop at file.now) }
{
    if at < file.len() {
        return file[at] == 10;
    }
    false
}

// The next byte of the unfolded line, and the place behind it; nothing at the line's end.
// No `for`: the steps are of one byte and of two.
#[tactic(auto, using(crate::proofs::LineWays::nexts))]
pub(crate) fn next(file: &[u8], from: Place) -> Option<(u8, Place)>
    requires { Before file.now from.at from.line }
    ensures { Steps file.now from.at from.line result }
{
    let mut at = from.at;
    let mut line = from.line;
    while at < file.len() {
        let b = file[at];
        if b == 10 {
            if is_fold(file, at + 1) {
                at += 2;
                line += 1;
            } else {
                return None;
            }
        } else if b == 13 {
            if is_feed(file, at + 1) {
                at += 1;
            } else {
                return Some((b, Place { at: at + 1, line }));
            }
        } else {
            return Some((b, Place { at: at + 1, line }));
        }
    }
    None
}

// Whether nothing is left of the line.
#[tactic(auto, using(crate::proofs::WordWays::overs))]
pub(crate) fn is_over(file: &[u8], from: Place) -> bool
    requires { Before file.now from.at from.line }
    ensures { result ≡ is_blank (ahead file.now from.at from.line) }
{
    next(file, from).is_none()
}

// Whether eight bytes stand there, and none of them is a line feed.
fn is_clear(file: &[u8], at: usize) -> bool
    ensures { Clears file.now at result }
{
    if file.len() < 8 || file.len() - 8 < at {
        return false;
    }
    if file[at] == 10
        || file[at + 1] == 10
        || file[at + 2] == 10
        || file[at + 3] == 10
        || file[at + 4] == 10
        || file[at + 5] == 10
        || file[at + 6] == 10
        || file[at + 7] == 10
    {
        return false;
    }
    true
}

// As far along a line as eight bytes at a time go without a line feed. No `for`: it ends where the bytes do, and not at a bound.
#[tactic(auto, using(crate::proofs::LineWays::strides))]
fn stride(file: &[u8], from: Place) -> usize
    requires { Before file.now from.at from.line }
    ensures { Skipping file.now from.at from.line result from.line }
{
    let mut at = from.at;
    while is_clear(file, at) {
        at += 8;
    }
    at
}

// The way past an unfolded line, from a place inside it.
// No `for`: the steps are of one byte and of two. Nor by `next`, which would look at each byte that `stride` passes over.
#[tactic(auto, using(crate::proofs::LineWays::skips))]
pub(crate) fn skip(file: &[u8], from: Place) -> Place
    requires { Before file.now from.at from.line }
    ensures { Skipped file.now from.at from.line result }
{
    let mut at = stride(file, from);
    let mut line = from.line;
    while at < file.len() {
        if file[at] == 10 {
            if is_fold(file, at + 1) {
                at += 2;
                line += 1;
            } else {
                return Place {
                    at: at + 1,
                    line: line + 1,
                };
            }
        } else {
            at += 1;
        }
    }
    Place { at, line }
}
