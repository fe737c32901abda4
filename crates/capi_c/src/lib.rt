// The functions of `capi` under the names of include/heronspan.h, for C: each with the promise that it has in `capi`, and no code
// but that call.
#![tactic(auto)]

// Dates.
mod dates;
// Schedules.
mod builds;
// A night's book.
mod books;
// Calendars.
mod calendars;
// Open days by an index.
mod indexes;
// A desk's closed dates over the house's.
mod desks;
// IMM dates and codes, and twentieths.
mod cycles;
// Differences and lengths.
mod counts;
// Requests off the wire.
mod readers;
// Names of refusals.
mod refusals;
// Year fractions.
mod years;
// Calendar files.
mod files;
