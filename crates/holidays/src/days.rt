// The days of 1800 to 2399 as a map of bits: day 657,072 is bit 0. The memory is fixed, so that no set grows.
ghost use Rattle.std.specs.Prelude.{◌≡◌, false, ◌+◌, ◌≤◌, ◌<◌, ◌/◌, ◌%◌, ◌^◌, length, get_or, set};
ghost use Rattle.holidays.specs.Inner.Days.{WORDS, DAYS, bit_at, days_of, over, Fulls, Empties, Adds};

fn is_set(map: &[u32], o: u32) -> bool
    requires map_len { length map.now ≡ WORDS }
    requires o_bound { o < DAYS }
    ensures { result ≡ bit_at map.now o }
{
    let w = (o / 32) as usize;
    (map[w] >> (o % 32)) % 2 == 1
}

// Sets a bit that is not set: a sum, since it is a power of two that is not in the word.
fn put(map: &mut [u32], o: u32)
    requires map_len { length map.old ≡ WORDS }
    requires o_bound { o < DAYS }
    requires o_value { bit_at map.old o ≡ false }
    ensures { map.new ≡ set map.old (o / 32) (get_or map.old (o / 32) 0 + 2 ^ (o % 32)) }
{
    let w = (o / 32) as usize;
    map[w] = map[w] + (1 << (o % 32));
}

// Whether the 32 days from a word's start are all set, and all lie before `past`.
fn is_full(map: &[u32], o: u32, past: u32) -> bool
    requires map_len { length map.now ≡ WORDS }
    requires o_lt_past { o < past }
    requires past_bound { past ≤ DAYS }
    ensures { Fulls map.now o past result }
{
    if o % 32 != 0 {
        return false;
    }
    if past < o + 32 {
        return false;
    }
    let w = (o / 32) as usize;
    map[w] == 4294967295
}

// Whether none of the 32 days from a word's start is set.
fn is_empty(map: &[u32], o: u32) -> bool
    requires map_len { length map.now ≡ WORDS }
    requires o_bound { o < DAYS }
    ensures { Empties map.now o result }
{
    if o % 32 != 0 {
        return false;
    }
    let w = (o / 32) as usize;
    map[w] == 0
}

// Adds the days from `first` up to `past`, ascending, to the `count` days of the map, and answers how many there are then; nothing if
// one more had no place. A full word is passed over at once. No `for`: the steps are of one day and of 32.
#[tactic(auto, using(crate::proofs::DayWays::addings))]
pub(crate) fn add_days(
    map: &mut [u32],
    first: u32,
    past: u32,
    count: u32,
    limit: u32,
) -> Option<u32>
    requires map_len { length map.old ≡ WORDS }
    requires first_le_past { first ≤ past }
    requires past_bound { past ≤ DAYS }
    requires count_value { count ≡ length (days_of map.old) }
    requires count_le_limit { count ≤ limit }
    ensures { Adds map.old first past limit result map.new }
{
    let mut o = first;
    let mut n = count;
    while o < past {
        if is_full(map, o, past) {
            o += 32;
        } else if is_set(map, o) {
            o += 1;
        } else if n == limit {
            return None;
        } else {
            put(map, o);
            n += 1;
            o += 1;
        }
    }
    Some(n)
}

// Writes the days of the map over the start of the list; an empty word is passed over at once. No `for`: the steps are of one day and of 32.
pub(crate) fn write_days(map: &[u32], list: &mut [u32])
    requires map_len { length map.now ≡ WORDS }
    requires map_in_bounds { length (days_of map.now) ≤ length list.old }
    ensures { list.new ≡ over (days_of map.now) list.old }
{
    let mut o = 0;
    let mut j = 0;
    while o < 219145 {
        if is_empty(map, o) {
            o += 32;
        } else if is_set(map, o) {
            list[j] = 657072 + o;
            j += 1;
            o += 1;
        } else {
            o += 1;
        }
    }
}
