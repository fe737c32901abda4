// Words of a line: read as numbers, or two of them compared, where they stand in the file.
ghost use Rattle.std.specs.Prelude.{◌≡◌, false, eqb};
ghost use Rattle.holidays.specs.Words.{upper, uppers, equal};
ghost use Rattle.holidays.specs.Content.{turned};
ghost use Rattle.holidays.specs.Inner.Letters.{Lettered, pack, packs};
ghost use Rattle.holidays.specs.Inner.Pieces.{is_stop, ReadsPiece};
ghost use Rattle.holidays.specs.Inner.Along.{Before, ahead};
ghost use Rattle.holidays.specs.Inner.Others.{Others, Stands};

use crate::lines;
use crate::lines::Place;

// A word as a number, the mark behind it (none at the line's end), whether that stands in quotes, and the place behind it.
#[derive(Clone, Copy)]
pub(crate) struct Piece {
    pub(crate) number: u64,
    pub(crate) mark: Option<u8>,
    pub(crate) quoted: bool,
    pub(crate) place: Place,
}

// A word's number from here on has no room for another letter.
const LONG: u64 = 288230376151711744;

// The numbers of names that count; that of DTSTAMP is compared to pass it by.
pub(crate) const BEGIN: u64 = 35822894;

pub(crate) const END: u64 = 38340;

pub(crate) const DTSTART: u64 = 39346374228;

pub(crate) const DTEND: u64 = 38409668;

pub(crate) const DTSTAMP: u64 = 39346374064;

pub(crate) const RRULE: u64 = 53040517;

pub(crate) const RDATE: u64 = 52561541;

pub(crate) const EXDATE: u64 = 1266812549;

pub(crate) const DURATION: u64 = 1260104852974;

// 1 to 26 for a letter in either case, 27 for the hyphen.
fn letter(b: u8) -> Option<u64>
    ensures { Lettered b result }
{
    match b {
        b'A'..=b'Z' => Some((b - b'A') as u64 + 1),
        b'a'..=b'z' => Some((b - b'a') as u64 + 1),
        b'-' => Some(27),
        _ => None,
    }
}

// The number of a word with one more letter, 0 for a word that can't count. No Option: words are compared with numbers alone, and 0 is
// none of them.
#[tactic(auto, using(crate::proofs::WordWays::packing))]
pub(crate) fn packed(word: u64, b: u8) -> u64
    ensures { result ≡ pack word b }
{
    if word == 0 {
        return 0;
    }
    if LONG <= word {
        return 0;
    }
    match letter(b) {
        Some(n) => word * 32 + n,
        None => 0,
    }
}

// Whether a byte ends a piece.
#[tactic(auto, using(crate::proofs::WordWays::marks))]
fn is_stop(equals: bool, quoted: bool, b: u8) -> bool
    ensures { result ≡ is_stop equals quoted b }
{
    match b {
        b'=' => equals,
        b':' => !quoted,
        b';' => !quoted,
        _ => false,
    }
}

#[tactic(auto, using(crate::proofs::WordWays::marks))]
fn after_quote(b: u8, quoted: bool) -> bool
    ensures { result ≡ turned (eqb b 34) quoted }
{
    if b == 34 {
        return !quoted;
    }
    quoted
}

#[tactic(auto, using(crate::proofs::WordWays::pieces))]
pub(crate) fn read_piece(file: &[u8], from: Place, equals: bool, quoted: bool) -> Piece
    requires { Before file.now from.at from.line }
    ensures { ReadsPiece file.now from.at from.line equals quoted result }
{
    let mut place = from;
    let mut number = 1;
    let mut inside = quoted;
    while let Some((b, behind)) = lines::next(file, place) {
        if is_stop(equals, inside, b) {
            return Piece {
                number,
                mark: Some(b),
                quoted: inside,
                place: behind,
            };
        }
        number = packed(number, b);
        inside = after_quote(b, inside);
        place = behind;
    }
    Piece {
        number,
        mark: None,
        quoted: inside,
        place,
    }
}

// Whether these bytes stand there.
#[tactic(auto, using(crate::proofs::NameWays::stand_ways))]
pub(crate) fn stands(file: &[u8], at: usize, word: &[u8]) -> bool
    ensures { Stands file.now at word.now result }
{
    if file.len() < word.len() {
        return false;
    }
    if file.len() - word.len() < at {
        return false;
    }
    for k in 0..word.len() {
        if file[at + k] != word[k] {
            return false;
        }
    }
    true
}

fn usual(number: u64, mark: u8, at: usize, line: u32) -> Piece
    ensures { result ≡ record { number = number; mark = Some mark; quoted = false; place = record { at = at; line = line } } }
{
    Piece {
        number,
        mark: Some(mark),
        quoted: false,
        place: Place { at, line },
    }
}

// The name of a line and its mark: the usual ones are compared at once.
#[tactic(auto, using(crate::proofs::NameWays::names))]
pub(crate) fn read_name(file: &[u8], from: Place) -> Piece
    requires { Before file.now from.at from.line }
    ensures { ReadsPiece file.now from.at from.line false false result }
{
    let at = from.at;
    if stands(file, at, b"DTSTART;") {
        return usual(DTSTART, b';', at + 8, from.line);
    }
    if stands(file, at, b"DTEND;") {
        return usual(DTEND, b';', at + 6, from.line);
    }
    if stands(file, at, b"BEGIN:") {
        return usual(BEGIN, b':', at + 6, from.line);
    }
    if stands(file, at, b"END:") {
        return usual(END, b':', at + 4, from.line);
    }
    if stands(file, at, b"DTSTAMP:") {
        return usual(DTSTAMP, b':', at + 8, from.line);
    }
    read_piece(file, from, false, false)
}

// The number of the word from a place to the line's end.
#[tactic(auto, using(crate::proofs::WordWays::wording))]
pub(crate) fn word_at(file: &[u8], from: Place) -> u64
    requires { Before file.now from.at from.line }
    ensures { result ≡ packs 1 (ahead file.now from.at from.line) }
{
    let mut place = from;
    let mut number = 1;
    while let Some((b, behind)) = lines::next(file, place) {
        number = packed(number, b);
        if number == 0 {
            return 0;
        }
        place = behind;
    }
    number
}

#[tactic(auto, using(crate::proofs::WordWays::capitals))]
fn capital(b: u8) -> u8
    ensures { result ≡ upper b }
{
    b.to_ascii_uppercase()
}

// Whether a byte stands there with which no name that counts starts: none of B, D, E and R, and no line end.
#[tactic(auto, using(crate::proofs::OtherWays::others))]
pub(crate) fn is_other(file: &[u8], at: usize) -> bool
    ensures { Others file.now at result }
{
    if file.len() <= at {
        return false;
    }
    match capital(file[at]) {
        b'\n' => false,
        b'\r' => false,
        b'B' => false,
        b'D' => false,
        b'E' => false,
        b'R' => false,
        _ => true,
    }
}

// Whether the words from two places to the ends of their lines are the same, in either case.
#[tactic(auto, using(crate::proofs::WordWays::comparings))]
pub(crate) fn same_words(file: &[u8], first: Place, second: Place) -> bool
    requires first { Before file.now first.at first.line }
    requires second { Before file.now second.at second.line }
    ensures { result ≡ equal (uppers (ahead file.now first.at first.line)) (uppers (ahead file.now second.at second.line)) }
{
    let mut a = first;
    let mut b = second;
    while let Some((x, behind_x)) = lines::next(file, a) {
        match lines::next(file, b) {
            None => {
                return false;
            }
            Some((y, behind_y)) => {
                if capital(x) != capital(y) {
                    return false;
                }
                a = behind_x;
                b = behind_y;
            }
        }
    }
    lines::is_over(file, b)
}
