// One line: it goes on to a new state, or stops with a refusal. The open parts and the days are lent one by one: each turn changes one of
// them alone, and a struct of both would have to say that of the other.
ghost use Rattle.std.specs.Prelude.{◌≡◌, false, ◌&&◌, eqb};
ghost use Rattle.holidays.specs.Nesting.{is_blank};
ghost use Rattle.holidays.specs.Inner.Along.{Before, ahead};
ghost use Rattle.holidays.specs.Inner.Digits.{IsSmall};
ghost use Rattle.holidays.specs.Inner.Parameters.{LiesBefore};
ghost use Rattle.holidays.specs.Inner.Events.{Counted};
ghost use Rattle.holidays.specs.Inner.Turns.{Nested, IsFar, Begins, EndTurns, CloseTurns, StartTurns, StopTurns, EventTurns, Keeps, Turned};
ghost use Rattle.holidays.specs.Inner.Pieces.{ReadsPiece};

use crate::lines::Place;
use crate::parameters::Value;
use crate::words::Piece;
use crate::{events, parameters, parts, words};
use refusal::Refusal;

// A place, how many parts are open around it, whether the second of them is a VEVENT, the days that the event has said, counted from
// 400 years before day 1, and how many days there are.
#[derive(Clone, Copy)]
pub(crate) struct State {
    pub(crate) place: Place,
    pub(crate) depth: usize,
    pub(crate) event: bool,
    pub(crate) start: Option<u32>,
    pub(crate) stop: Option<u32>,
    pub(crate) count: u32,
}

#[tactic(auto, using(crate::proofs::TurnWays::begin_ways))]
fn begin_turn(file: &[u8], v: Value, st: State, stack: &mut [u32]) -> Result<State, Refusal>
    requires before { LiesBefore file.now v.place }
    requires nested { Nested file.now stack.old st.depth st.event st.place.at }
    requires depth_bound { IsFar st.depth v.place }
    ensures { Begins file.now v st stack.old result stack.new }
{
    let Some(place) = v.place else {
        return Err(Refusal::Ical);
    };
    match parts::open_part(file, place, st.depth, st.event, stack) {
        None => Err(Refusal::Ical),
        Some(event) => Ok(State {
            place,
            depth: st.depth + 1,
            event,
            ..st
        }),
    }
}

// END:VEVENT. The state is the one before the line.
#[tactic(auto, using(crate::proofs::TurnWays::close_ways))]
fn close_turn(st: State, room: usize, map: &mut [u32]) -> Result<State, Refusal>
    requires start_bound { IsSmall st.start }
    requires counted { Counted room st.count map.old }
    ensures { CloseTurns st room map.old result map.new }
{
    let count = events::close(st.start, st.stop, st.count, room, map)?;
    Ok(State {
        depth: 1,
        start: None,
        stop: None,
        count,
        ..st
    })
}

#[tactic(auto, using(crate::proofs::TurnWays::date_ways))]
fn start_turn(file: &[u8], name: Piece, st: State) -> Result<State, Refusal>
    requires { ReadsPiece file.now st.place.at st.place.line false false name }
    ensures { StartTurns file.now st result }
{
    let v = parameters::read_value(file, name.place, name.mark);
    let day = events::note(file, st.start, v)?;
    Ok(State {
        start: Some(day),
        ..st
    })
}

#[tactic(auto, using(crate::proofs::TurnWays::date_ways))]
fn stop_turn(file: &[u8], name: Piece, st: State) -> Result<State, Refusal>
    requires reads_piece { ReadsPiece file.now st.place.at st.place.line false false name }
    requires start_bound { IsSmall st.start }
    ensures { StopTurns file.now st result }
{
    let v = parameters::read_value(file, name.place, name.mark);
    let day = events::note(file, st.stop, v)?;
    Ok(State {
        stop: Some(day),
        ..st
    })
}

// A line directly in a VEVENT that is no BEGIN and no END: DTSTART, DTEND, then RRULE, RDATE, EXDATE and DURATION.
#[tactic(auto, using(crate::proofs::TurnWays::event_ways))]
fn event_turn(file: &[u8], name: Piece, st: State) -> Result<State, Refusal>
    requires reads_piece { ReadsPiece file.now st.place.at st.place.line false false name }
    requires start_bound { IsSmall st.start }
    requires not_begin { name.number ≡ 35822894 → ⊥ }
    requires not_end { name.number ≡ 38340 → ⊥ }
    ensures { EventTurns file.now st result }
{
    match name.number {
        words::DTSTART => start_turn(file, name, st),
        words::DTEND => stop_turn(file, name, st),
        words::RRULE => Err(Refusal::IcalKind),
        words::RDATE => Err(Refusal::IcalKind),
        words::EXDATE => Err(Refusal::IcalKind),
        words::DURATION => Err(Refusal::IcalKind),
        _ => Ok(st),
    }
}

// Whether the innermost part is a VEVENT.
#[tactic(auto, using(crate::proofs::TurnWays::end_ways))]
fn in_event(depth: usize, event: bool) -> bool
    ensures { result ≡ (eqb depth 2 && event) }
{
    depth == 2 && event
}

#[tactic(auto, using(crate::proofs::TurnWays::end_ways))]
fn end_turn(
    file: &[u8],
    v: Value,
    st: State,
    stack: &[u32],
    room: usize,
    map: &mut [u32],
) -> Result<State, Refusal>
    requires before { LiesBefore file.now v.place }
    requires nested { Nested file.now stack.now st.depth st.event st.place.at }
    requires start_bound { IsSmall st.start }
    requires counted { Counted room st.count map.old }
    ensures { EndTurns file.now v st stack.now room map.old result map.new }
{
    let Some(place) = v.place else {
        return Err(Refusal::Ical);
    };
    let depth = st.depth;
    if depth == 0 {
        return Err(Refusal::Ical);
    }
    if parts::may_end(file, place, depth - 1, stack) {
        if in_event(depth, st.event) {
            return close_turn(st, room, map);
        }
        return Ok(State {
            depth: depth - 1,
            ..st
        });
    }
    Err(Refusal::Ical)
}

// A line whose name may be one that counts.
#[tactic(auto, using(crate::proofs::TurnWays::turn_ways))]
fn named_turn(
    file: &[u8],
    st: State,
    stack: &mut [u32],
    room: usize,
    map: &mut [u32],
) -> Result<State, Refusal>
    requires before { Before file.now st.place.at st.place.line }
    requires line_value { is_blank (ahead file.now st.place.at st.place.line) ≡ false }
    requires keeps { Keeps file.now stack.old room map.old st }
    ensures { Turned file.now st stack.old room map.old result stack.new map.new }
{
    let name = words::read_name(file, st.place);
    if name.number == words::BEGIN {
        let v = parameters::read_value(file, name.place, name.mark);
        return begin_turn(file, v, st, stack);
    }
    if name.number == words::END {
        let v = parameters::read_value(file, name.place, name.mark);
        return end_turn(file, v, st, stack, room, map);
    }
    if st.depth == 0 {
        return Err(Refusal::Ical);
    }
    if in_event(st.depth, st.event) {
        return event_turn(file, name, st);
    }
    Ok(st)
}

// A line that is not blank.
#[tactic(auto, using(crate::proofs::OtherWays::other_turns))]
pub(crate) fn take_turn(
    file: &[u8],
    st: State,
    stack: &mut [u32],
    room: usize,
    map: &mut [u32],
) -> Result<State, Refusal>
    requires before { Before file.now st.place.at st.place.line }
    requires line_value { is_blank (ahead file.now st.place.at st.place.line) ≡ false }
    requires keeps { Keeps file.now stack.old room map.old st }
    ensures { Turned file.now st stack.old room map.old result stack.new map.new }
{
    if words::is_other(file, st.place.at) {
        if st.depth == 0 {
            return Err(Refusal::Ical);
        }
        return Ok(st);
    }
    named_turn(file, st, stack, room, map)
}
