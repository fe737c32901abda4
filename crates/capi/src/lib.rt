// The functions that other languages call, by way of `capi_c`. Each answers in one number, zero or more for a value and below zero
// for minus a refusal; a slice is a pointer and a length to the caller.
#![tactic(auto)]

// Dates.
pub mod dates;
// Schedules.
pub mod builds;
// A night's book.
pub mod books;
// Calendars.
pub mod calendars;
// Open days by an index.
pub mod indexes;
// A desk's closed dates over the house's.
pub mod desks;
// IMM dates and codes, and twentieths.
pub mod cycles;
// Differences and lengths.
pub mod counts;
// Requests off the wire.
pub mod readers;
// Names of refusals.
pub mod refusals;
// Year fractions.
pub mod years;
// Calendar files.
pub mod files;
