// A reader in 46 words of 16 bits. Where it stands is in twenty: how many bytes are stored, the place where the body ends, the bytes
// fed that are not stored, what comes next and (in the upper byte) whether finished, the tag, the length's high byte, whether all is
// sound, the length of 0B, the places; so a byte in the midst of a body changes the first alone. Then the numbers of the request
// that was found last, each in two, the low one first.
ghost use Rattle.std.specs.Prelude.{◌≡◌, ◌+◌, ◌*◌, ◌/◌, ◌%◌, ◌<◌, length, get_or, set, replicate};
ghost use Rattle.std.proofs.lemmas.List.Edits.{sets};
ghost use Rattle.fed.specs.Words.{sum_of, less_of, places_in, state_in, head_of, with_places, Put, with_numbers, goes_on, runs_of};

use feeding::State;

#[tactic(auto, using(crate::proofs::WordWays::sum_wraps))]
fn sum(a: u16, b: u16) -> u16
    ensures { result ≡ sum_of a b }
{
    a.wrapping_add(b)
}

#[tactic(auto, using(crate::proofs::WordWays::less_wraps))]
fn less(a: u16, b: u16) -> u16
    ensures { result ≡ less_of a b }
{
    a.wrapping_sub(b)
}

fn pair(low: u8, high: u8) -> u16
    ensures { result ≡ low + high * 256 }
{
    low as u16 + high as u16 * 256
}

fn low(w: u16) -> u8
    ensures { result ≡ w % 256 }
{
    (w % 256) as u8
}

fn upper(w: u16) -> u8
    ensures { result ≡ w / 256 }
{
    (w / 256) as u8
}

fn low_word(n: u32) -> u16
    ensures { result ≡ n % 65536 }
{
    (n % 65536) as u16
}

fn upper_word(n: u32) -> u16
    ensures { result ≡ n / 65536 }
{
    (n / 65536) as u16
}

fn places_in(words: &[u16; 46]) -> [u16; 12]
    ensures { result ≡ places_in words.now }
{
    [
        words[8], words[9], words[10], words[11], words[12], words[13], words[14], words[15],
        words[16], words[17], words[18], words[19],
    ]
}

pub(crate) fn state_in(words: &[u16; 46]) -> State
    ensures { result ≡ state_in words.now }
{
    let phase = low(words[3]);
    let finished = upper(words[3]);
    let tag = low(words[4]);
    let high = low(words[5]);
    let sound = low(words[6]);
    let due = less(words[1], words[0]);
    let fed = sum(words[2], words[0]);
    let places = places_in(words);
    State {
        phase,
        tag,
        high,
        sound,
        finished,
        due,
        kept: words[0],
        fed,
        size: words[7],
        places,
    }
}

fn with_places(words: [u16; 46], places: [u16; 12]) -> [u16; 46]
    ensures { result ≡ with_places places words }
{
    let mut now = words;
    now[8] = places[0];
    now[9] = places[1];
    now[10] = places[2];
    now[11] = places[3];
    now[12] = places[4];
    now[13] = places[5];
    now[14] = places[6];
    now[15] = places[7];
    now[16] = places[8];
    now[17] = places[9];
    now[18] = places[10];
    now[19] = places[11];
    now
}

fn with_head(words: [u16; 46], s: State) -> [u16; 46]
    ensures { result ≡ sets words 0 (head_of s) }
{
    let mut now = words;
    now[0] = s.kept;
    now[1] = sum(s.kept, s.due);
    now[2] = less(s.fed, s.kept);
    now[3] = pair(s.phase, s.finished);
    now[4] = s.tag as u16;
    now[5] = s.high as u16;
    now[6] = s.sound as u16;
    now[7] = s.size;
    now
}

fn with_state(words: [u16; 46], s: State) -> [u16; 46]
    ensures { Put s words result }
{
    with_places(with_head(words, s), s.places)
}

pub(crate) fn put_state(s: State, words: &mut [u16; 46])
    ensures { Put s words.old words.new }
{
    *words = with_state(*words, s);
}

pub(crate) fn clear(words: &mut [u16; 46])
    ensures { words.new ≡ replicate 46 0 }
{
    *words = [0u16; 46];
}

pub(crate) fn put_numbers(numbers: [u32; 13], words: &mut [u16; 46])
    ensures { words.new ≡ with_numbers words.old 20 numbers }
{
    for i in 0..13 {
        words[20 + 2 * i] = low_word(numbers[i]);
        words[21 + 2 * i] = upper_word(numbers[i]);
    }
}

// Whether the byte behind those stored is one of a body before its last, and of the first 20,000.
#[tactic(auto, unfolding(crate::specs::Words::goes_on, request::specs::Format::pick))]
fn goes_on(kept: u16, stop: u16, others: u16) -> bool
    ensures { result ≡ goes_on kept stop others }
{
    kept as usize + 1 < stop as usize && kept as usize + (others as usize) < 20000
}

// Whether a part of so many bytes is one byte of a body, behind its first and before its last, within the first 20,000.
#[tactic(auto, unfolding(crate::specs::Words::runs_of, request::specs::Format::pick))]
pub(crate) fn runs(words: &[u16; 46], n: usize) -> bool
    ensures { result ≡ runs_of words.now n }
{
    n == 1 && words[3] == 4 && goes_on(words[0], words[1], words[2])
}

// Puts such a byte to its place.
pub(crate) fn run(words: &mut [u16; 46], b: u8, buffer: &mut [u8])
    requires words_bound { get_or words.old 0 0 < 65535 }
    requires words_in_bounds { get_or words.old 0 0 < length buffer.old }
    ensures { (words.new ≡ set words.old 0 (get_or words.old 0 0 + 1)) × (buffer.new ≡ set buffer.old (get_or words.old 0 0) b) }
{
    let kept = words[0];
    words[0] = kept + 1;
    buffer[kept as usize] = b;
}
