// The parameters of a line, and the place of its value.
ghost use Rattle.std.specs.Prelude.{◌≡◌};
ghost use Rattle.holidays.specs.Inner.Along.{Before};
ghost use Rattle.holidays.specs.Inner.Pieces.{mark_number};
ghost use Rattle.holidays.specs.Inner.Parameters.{KindsOf, Joins, Behind, ReadsParameter, ReadsKinds, ReadsValue};

use crate::lines::Place;
use crate::words;

// What parameters say of VALUE: nothing, DATE, DATE-TIME, or anything else.
#[derive(Clone, Copy, PartialEq, Eq)]
pub(crate) enum Kind {
    Unsaid,
    Date,
    DateTime,
    Strange,
}

// What one parameter says of VALUE, the mark behind it and the place behind that.
#[derive(Clone, Copy)]
struct Parameter {
    kind: Kind,
    mark: Option<u8>,
    place: Place,
}

// What the parameters say of VALUE, and where the line's value starts, if it has one.
#[derive(Clone, Copy)]
pub(crate) struct Value {
    pub(crate) kind: Kind,
    pub(crate) place: Option<Place>,
}

// The numbers of VALUE, DATE and DATE-TIME.
const VALUE: u64 = 56668837;

const DATE: u64 = 1181317;

const DATE_TIME: u64 = 39638449923493;

#[tactic(auto, using(crate::proofs::ParameterWays::kinds_are))]
fn kind_of(key: u64, word: u64) -> Kind
    ensures { KindsOf key word result }
{
    if key != VALUE {
        return Kind::Unsaid;
    }
    if word == DATE {
        return Kind::Date;
    }
    if word == DATE_TIME {
        return Kind::DateTime;
    }
    Kind::Strange
}

// What two parameters say together.
#[tactic(auto, using(crate::proofs::ParameterWays::kinds_are))]
fn joined(a: Kind, b: Kind) -> Kind
    ensures { Joins a b result }
{
    match (a, b) {
        (Kind::Unsaid, kind) => kind,
        (kind, Kind::Unsaid) => kind,
        _ => Kind::Strange,
    }
}

#[tactic(auto, using(crate::proofs::ParameterWays::parameters_are))]
fn read_parameter(file: &[u8], from: Place) -> Parameter
    requires { Before file.now from.at from.line }
    ensures { ReadsParameter file.now from.at from.line result }
{
    let key = words::read_piece(file, from, true, false);
    if key.mark == Some(b'=') {
        let word = words::read_piece(file, key.place, false, key.quoted);
        return Parameter {
            kind: kind_of(key.number, word.number),
            mark: word.mark,
            place: word.place,
        };
    }
    Parameter {
        kind: kind_of(key.number, 1),
        mark: key.mark,
        place: key.place,
    }
}

// The place behind a mark, if it is the colon before the value.
#[tactic(auto, using(crate::proofs::ParameterWays::behinds))]
fn value_behind(mark: Option<u8>, place: Place) -> Option<Place>
    ensures { Behind mark place result }
{
    match mark {
        Some(b':') => Some(place),
        _ => None,
    }
}

// From behind the first semicolon.
#[tactic(auto, using(crate::proofs::ParameterWays::kindings))]
fn read_kinds(file: &[u8], from: Place) -> Value
    requires { Before file.now from.at from.line }
    ensures { ReadsKinds file.now from.at from.line result }
{
    let mut place = from;
    let mut kind = Kind::Unsaid;
    loop {
        let p = read_parameter(file, place);
        kind = joined(kind, p.kind);
        if p.mark == Some(b';') {
            place = p.place;
        } else {
            return Value {
                kind,
                place: value_behind(p.mark, p.place),
            };
        }
    }
}

// From behind the first semicolon, where the parameters may be the usual one: VALUE=DATE and a colon in capitals and without a fold,
// as in nearly every file.
#[tactic(auto, using(crate::proofs::UsualWays::usual_ways))]
fn read_usual(file: &[u8], from: Place) -> Value
    requires { Before file.now from.at from.line }
    ensures { ReadsKinds file.now from.at from.line result }
{
    if words::stands(file, from.at, b"VALUE=DATE:") {
        return Value {
            kind: Kind::Date,
            place: Some(Place {
                at: from.at + 11,
                line: from.line,
            }),
        };
    }
    read_kinds(file, from)
}

// From behind a name and the mark that ended it.
#[tactic(auto, using(crate::proofs::ParameterWays::values_are))]
pub(crate) fn read_value(file: &[u8], from: Place, mark: Option<u8>) -> Value
    requires { Before file.now from.at from.line }
    ensures { ReadsValue file.now from.at from.line (mark_number mark) result }
{
    if mark == Some(b';') {
        return read_usual(file, from);
    }
    Value {
        kind: Kind::Unsaid,
        place: value_behind(mark, from),
    }
}
