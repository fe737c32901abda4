// The reader: where in a field it stands, and what a byte does.
ghost use Rattle.std.specs.Prelude.{◌≡◌, ◌+◌, ◌%◌, ◌≤◌, ◌<◌, ◌&&◌, eqb, leb, length, set};
ghost use Rattle.request.specs.Tags.{CLOSED};
ghost use Rattle.request.specs.Format.{pick, is_letter};
ghost use Rattle.feeding.specs.Feed.{size_ok, first_ok, starts_ok, settled, keeps_of, on_tag, on_high, on_low, on_body, spoilt, eat_of, keep_of};
ghost use Rattle.feeding.specs.Inner.Runs.{Most, Running, ran, copied, Taken};

use crate::State;
use request::{bodies, stored};

// What comes next: a tag, the high byte of a length, its low byte, the first byte of a body, a further one; or FF has ended.
pub const TAG: u8 = 0;

pub const HIGH: u8 = 1;

pub const LOW: u8 = 2;

pub const FIRST: u8 = 3;

pub const BODY: u8 = 4;

pub const ENDED: u8 = 5;

#[tactic(auto, unfolding(request::specs::Format::pick))]
fn still(sound: u8, ok: bool) -> u8
    ensures { result ≡ pick ok sound 0 }
{
    if ok { sound } else { 0 }
}

// Closed dates, 4 bytes each.
fn dates_ok(n: u16) -> bool
    ensures { result ≡ leb n 16384 && eqb (n % 4) 0 }
{
    n <= 16384 && n % 4 == 0
}

// Whether the tag has a field, and the length is one that it may have.
#[tactic(auto, unfolding(crate::specs::Feed::size_ok, request::specs::Format::pick))]
fn size_ok(tag: u8, n: u16) -> bool
    ensures { result ≡ size_ok tag n }
{
    if tag == 255 {
        return n == 0;
    }
    if tag == 11 {
        return dates_ok(n);
    }
    if tag < 11 {
        return n == stored::WIDTHS[tag as usize];
    }
    false
}

// Whether the body of a tag may start with the byte.
#[tactic(auto, unfolding(crate::specs::Feed::first_ok, request::specs::Format::pick))]
fn first_ok(tag: u8, b: u8) -> bool
    ensures { result ≡ first_ok tag b }
{
    match tag {
        3 => bodies::is_letter(b),
        4 => b < 10,
        5 => b < 5,
        6 => b < 5,
        7 => b < 2,
        10 => b < 128,
        _ => true,
    }
}

// After a length or bytes of a body: the field goes on, is over, or was FF.
#[tactic(auto, unfolding(crate::specs::Feed::settled, request::specs::Format::pick))]
fn settle(s: State) -> State
    ensures { result ≡ settled s }
{
    if s.due != 0 {
        return s;
    }
    let phase = if s.tag == 255 { ENDED } else { TAG };
    State { phase, ..s }
}

#[tactic(auto, unfolding(request::specs::Format::pick))]
fn size_of(tag: u8, n: u16, size: u16) -> u16
    ensures { result ≡ pick (eqb tag CLOSED) n size }
{
    if tag == 11 { n } else { size }
}

fn placed(places: [u16; 12], tag: u8, kept: u16) -> [u16; 12]
    ensures { result ≡ set places tag kept }
{
    let mut now = places;
    let t = tag as usize;
    if t < 12 {
        now[t] = kept;
    }
    now
}

#[tactic(auto, unfolding(crate::specs::Feed::on_tag))]
fn on_tag(s: State, b: u8) -> State
    ensures { result ≡ on_tag s b }
{
    State {
        phase: HIGH,
        tag: b,
        sound: still(s.sound, s.tag < b),
        ..s
    }
}

#[tactic(auto, unfolding(crate::specs::Feed::on_high))]
fn on_high(s: State, b: u8) -> State
    ensures { result ≡ on_high s b }
{
    State {
        phase: LOW,
        high: b,
        ..s
    }
}

#[tactic(auto, unfolding(crate::specs::Feed::on_size))]
fn on_low(s: State, b: u8) -> State
    ensures { result ≡ on_low s b }
{
    let n = s.high as u16 * 256 + b as u16;
    settle(State {
        phase: FIRST,
        sound: still(s.sound, size_ok(s.tag, n)),
        due: n,
        size: size_of(s.tag, n, s.size),
        places: placed(s.places, s.tag, s.kept),
        ..s
    })
}

// Whether the next byte is one of a body, and there is a place for it.
#[tactic(auto, unfolding(crate::specs::Feed::keeps_of, request::specs::Format::pick))]
fn keeps(s: State) -> bool
    ensures { result ≡ keeps_of s }
{
    s.fed < 20000 && s.kept < 20000 && s.due != 0 && (s.phase == BODY || s.phase == FIRST)
}

#[tactic(auto, unfolding(crate::specs::Feed::starts_ok, request::specs::Format::pick))]
fn starts_ok(phase: u8, tag: u8, b: u8) -> bool
    ensures { result ≡ starts_ok phase tag b }
{
    phase != FIRST || first_ok(tag, b)
}

#[tactic(auto, unfolding(crate::specs::Feed::on_body))]
fn on_body(s: State, b: u8) -> State
    requires le_due { 1 ≤ s.due }
    requires kept_bound { s.kept < 20000 }
    ensures { result ≡ on_body s b }
{
    settle(State {
        phase: BODY,
        sound: still(s.sound, starts_ok(s.phase, s.tag, b)),
        due: s.due - 1,
        kept: s.kept + 1,
        ..s
    })
}

#[tactic(auto, unfolding(crate::specs::Feed::spoilt))]
fn spoil(s: State) -> State
    ensures { result ≡ spoilt s }
{
    State { sound: 0, ..s }
}

// One byte.
#[tactic(auto, using(crate::proofs::ByteWays::kept_small, crate::proofs::ByteWays::due_some), unfolding(crate::specs::Feed::eat_of, request::specs::Format::pick))]
fn eat(s: State, b: u8) -> State
    ensures { result ≡ eat_of s b }
{
    let n = s.fed;
    if 20000 <= n {
        return spoil(State { fed: 20001, ..s });
    }
    let t = State { fed: n + 1, ..s };
    match s.phase {
        TAG => on_tag(t, b),
        HIGH => on_high(t, b),
        LOW => on_low(t, b),
        _ if keeps(s) => on_body(t, b),
        _ => spoil(t),
    }
}

// How many of so many bytes go to the body in one run: none where the reader does not stand behind a body's first byte.
fn run_of(s: State, left: usize) -> usize
    ensures { Running s left result }
{
    if s.phase == BODY {
        return left.min(most_of(s.due, s.kept, s.fed) as usize);
    }
    0
}

// The reader behind a run of so many bytes.
#[tactic(auto, unfolding(crate::specs::Inner::Runs::ran))]
fn run(s: State, n: usize) -> State
    requires n_le_due { n ≤ s.due }
    requires kept_fits { s.kept + n ≤ 20000 }
    requires fed_fits { s.fed + n ≤ 20000 }
    ensures { result ≡ ran s n }
{
    let k = n as u16;
    settle(State {
        due: s.due - k,
        kept: s.kept + k,
        fed: s.fed + k,
        ..s
    })
}

// Copies the part into the buffer from a place on.
fn copy(part: &[u8], buffer: &mut [u8], at: usize)
    requires { at + length part.now ≤ length buffer.old }
    ensures { buffer.new ≡ copied buffer.old at part.now }
{
    for (j, b) in part.iter().enumerate() {
        buffer[at + j] = *b;
    }
}

// How many of the bytes due have a place, and are within the first 20,000.
fn most_of(due: u16, kept: u16, fed: u16) -> u16
    ensures { Most due kept fed result }
{
    if 20000 <= kept || 20000 <= fed {
        return 0;
    }
    due.min(20000 - kept).min(20000 - fed)
}

// Puts a byte of a body to its place.
#[tactic(auto, using(crate::proofs::ByteWays::kept_small), unfolding(crate::specs::Feed::keep_of, request::specs::Format::pick))]
fn put(s: State, b: u8, buffer: &mut [u8])
    requires { 20000 ≤ length buffer.old }
    ensures { buffer.new ≡ keep_of s b buffer.old }
{
    if keeps(s) {
        let at = s.kept as usize;
        buffer[at] = b;
    }
}

// Takes in the bytes of a part.
pub(crate) fn take_in(state: State, part: &[u8], buffer: &mut [u8]) -> State
    requires { 20000 ≤ length buffer.old }
    ensures { Taken state part.now buffer.old result buffer.new }
{
    let mut s = state;
    let mut j = 0;
    // A turn takes one byte or a whole run, so that the place goes on by more than a `for` gives.
    while j < part.len() {
        let n = run_of(s, part.len() - j);
        if n == 0 {
            let b = part[j];
            put(s, b, buffer);
            s = eat(s, b);
            j += 1;
        } else {
            let end = j + n;
            let from = s.kept as usize;
            copy(&part[j..end], buffer, from);
            s = run(s, n);
            j = end;
        }
    }
    s
}
