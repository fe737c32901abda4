// Year fractions. A basis is 0 for Actual/360, 1 for Actual/365 Fixed and 2 for 30E/360. Dates may lie beyond the book, from 1800 to
// 2399, as paid dates do.
ghost use Rattle.std.specs.Prelude.{◌≡◌};
ghost use Rattle.refusal.specs.Answer.{then};
ghost use Rattle.fractions.specs.Fractions.{parts_of, fraction_of};
ghost use Rattle.fractions.specs.Reports.{report_of};
ghost use Rattle.crossing.specs.Answers.{one_number_of};
ghost use Rattle.crossing.specs.Years.{basis_of, bits, two_parts, three_sums, Laid};

// The fraction of a year that a period is, as the bits of a double.
#[unsafe(no_mangle)]
pub extern "C" fn heronspan_year_fraction(basis: u8, start: u32, end: u32) -> i64
    ensures { result ≡ one_number_of bits (then (basis_of basis) (λ k. fraction_of k start end)) }
{
    capi::years::heronspan_year_fraction(basis, start, end)
}

// Numerator and denominator of a period, into the first two places of `parts`.
#[unsafe(no_mangle)]
pub extern "C" fn heronspan_year_parts(basis: u8, start: u32, end: u32, parts: &mut [u32]) -> i64
    ensures { Laid 2 (then (then (basis_of basis) (λ k. parts_of k start end)) two_parts) result parts.old parts.new }
{
    capi::years::heronspan_year_parts(basis, start, end, parts)
}

// The sums of the numerators over the periods of a list of dates, one for each basis, into the first three places of `sums`.
#[unsafe(no_mangle)]
pub extern "C" fn heronspan_year_report(dates: &[u32], sums: &mut [u32]) -> i64
    ensures { Laid 3 (then (report_of dates.now) three_sums) result sums.old sums.new }
{
    capi::years::heronspan_year_report(dates, sums)
}
