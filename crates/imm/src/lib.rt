// IMM dates, and the codes that name them.
#![tactic(auto, unfolding(crate::specs::Imm::is_imm_date, crate::specs::Imm::is_imm_in, crate::specs::Imm::is_code, crate::specs::Imm::code_in, crate::specs::Imm::date_in, crate::specs::Imm::code_month, crate::specs::Imm::code_digit, crate::specs::Imm::next_in, crate::specs::Imm::next_with_code, crate::specs::Imm::code_after, crate::specs::Imm::next_code_in, crate::specs::Imm::next_code_with_code, refusal::specs::Answer::need, refusal::specs::Answer::then))]

ghost use Rattle.std.specs.Prelude.{◌≡◌};
ghost use Rattle.refusal.specs.Answer.{answered};
ghost use Rattle.imm.specs.Imm.{is_imm_date, is_imm_in, is_code, code_in, date_in, next_in, next_with_code, next_code_in, next_code_with_code};
ghost use Rattle.date.specs.Date.{dated};

use codes::Code;
use date::Date;
use refusal::Refusal;

// Letters and digits.
pub mod codes;
// Day numbers.
pub mod days;

// Whether a day number, in the book or not, is that of an IMM date.
pub fn is_imm_day(day: u32, main: bool) -> bool
    ensures { result ≡ is_imm_date main day }
{
    // The weekday first: it costs a tenth of the civil date, and six days of seven need no more.
    if date::civil::weekday_of(day) != days::WEDNESDAY {
        return false;
    }
    let f = date::civil::fields_of(day);
    15 <= f.day && f.day <= 21 && codes::in_cycle(main, f.month)
}

// Whether the date is a Wednesday, day 15 to 21; for the main cycle also of month 3, 6, 9 or 12.
pub fn is_imm_date(date: Date, main: bool) -> Result<bool, Refusal>
    ensures { answered result ≡ is_imm_in main date.day }
{
    Ok(is_imm_day(date.booked()?, main))
}

// Whether the bytes are a month's letter, either case, and a digit; for the main cycle the letter is H, M, U or Z.
pub fn is_imm_code(code: &[u8], main: bool) -> bool
    ensures { result ≡ is_code main code.now }
{
    match code {
        [letter, digit] => codes::is_pair(main, *letter, *digit),
        _ => false,
    }
}

// The code of an IMM date.
pub fn code(date: Date) -> Result<Code, Refusal>
    ensures { answered result ≡ code_in date.day }
{
    let n = date.booked()?;
    if is_imm_day(n, false) {
        Ok(codes::code_of(n))
    } else {
        Err(Refusal::Code)
    }
}

// The earliest IMM date on or after the reference that has the code's month and last digit of the year.
pub fn date(code: &[u8], reference: Date) -> Result<Date, Refusal>
    ensures { dated result ≡ date_in code.now reference.day }
{
    let n = reference.booked()?;
    if !is_imm_code(code, false) {
        return Err(Refusal::Code);
    }
    days::date_of(codes::month_of(code[0]), (code[1] - 48) as u32, n)
}

// The earliest IMM date after the reference.
pub fn next_date(reference: Date, main: bool) -> Result<Date, Refusal>
    ensures { dated result ≡ next_in main reference.day }
{
    days::next_after(main, reference.booked()?)
}

// The earliest IMM date after the one that the code names; any month's letter will do.
pub fn next_date_with_code(code: &[u8], main: bool, reference: Date) -> Result<Date, Refusal>
    ensures { dated result ≡ next_with_code code.now main reference.day }
{
    let named = date(code, reference)?;
    days::next_after(main, named.day)
}

// The code of the earliest IMM date after the reference.
pub fn next_code(reference: Date, main: bool) -> Result<Code, Refusal>
    ensures { answered result ≡ next_code_in main reference.day }
{
    let coming = next_date(reference, main)?;
    Ok(codes::code_of(coming.day))
}

// The code of the earliest IMM date after the one that the code names.
pub fn next_code_with_code(code: &[u8], main: bool, reference: Date) -> Result<Code, Refusal>
    ensures { answered result ≡ next_code_with_code code.now main reference.day }
{
    let coming = next_date_with_code(code, main, reference)?;
    Ok(codes::code_of(coming.day))
}
