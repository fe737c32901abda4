// IMM dates and codes, and twentieths. `main` is 1 for the main cycle, 0 for every month.
ghost use Rattle.std.specs.Prelude.{◌≡◌};
ghost use Rattle.refusal.specs.Answer.{given, then};
ghost use Rattle.imm.specs.Imm.{is_imm_in, is_code, code_in, date_in, next_in, next_with_code, next_code_in, next_code_with_code};
ghost use Rattle.steps.specs.Twentieths.{next_twentieth_of, previous_twentieth_of};
ghost use Rattle.crossing.specs.Answers.{one_number_of, itself, yes, two_bytes};
ghost use Rattle.crossing.specs.Numbers.{flag_of, rule_of};

use crossing::answers::one_number;
use date::Date;

// 1 where the day is an IMM date, 0 where it is not.
#[tactic(auto, unfolding(refusal::specs::Answer::then))]
pub fn heronspan_is_imm_date(day: u32, main: u8) -> i64
    ensures { result ≡ one_number_of yes (then (flag_of main) (λ m. is_imm_in m day)) }
{
    one_number(crossing::flag_of(main).and_then(|main| imm::is_imm_date(Date { day }, main)))
}

// 1 where the bytes are a code, 0 where they are not.
#[tactic(auto, unfolding(refusal::specs::Answer::then))]
pub fn heronspan_is_imm_code(code: &[u8], main: u8) -> i64
    ensures { result ≡ one_number_of yes (then (flag_of main) (λ m. given (is_code m code.now))) }
{
    one_number(crossing::flag_of(main).map(|main| imm::is_imm_code(code, main)))
}

// The code of an IMM date, as letter * 256 + digit, both bytes.
pub fn heronspan_imm_code(day: u32) -> i64
    ensures { result ≡ one_number_of two_bytes (code_in day) }
{
    one_number(imm::code(Date { day }))
}

// The earliest IMM date on or after the day that the code names.
pub fn heronspan_imm_date(code: &[u8], day: u32) -> i64
    ensures { result ≡ one_number_of itself (date_in code.now day) }
{
    one_number(imm::date(code, Date { day }))
}

// The earliest IMM date after the day.
#[tactic(auto, unfolding(refusal::specs::Answer::then))]
pub fn heronspan_next_imm_date(day: u32, main: u8) -> i64
    ensures { result ≡ one_number_of itself (then (flag_of main) (λ m. next_in m day)) }
{
    one_number(crossing::flag_of(main).and_then(|main| imm::next_date(Date { day }, main)))
}

// The earliest IMM date after the one that the code names.
#[tactic(auto, unfolding(refusal::specs::Answer::then))]
pub fn heronspan_next_imm_date_with_code(code: &[u8], main: u8, day: u32) -> i64
    ensures { result ≡ one_number_of itself (then (flag_of main) (λ m. next_with_code code.now m day)) }
{
    let date = Date { day };
    one_number(crossing::flag_of(main).and_then(|main| imm::next_date_with_code(code, main, date)))
}

// The code of the earliest IMM date after the day.
#[tactic(auto, unfolding(refusal::specs::Answer::then))]
pub fn heronspan_next_imm_code(day: u32, main: u8) -> i64
    ensures { result ≡ one_number_of two_bytes (then (flag_of main) (λ m. next_code_in m day)) }
{
    one_number(crossing::flag_of(main).and_then(|main| imm::next_code(Date { day }, main)))
}

// The code of the earliest IMM date after the one that the code names.
#[tactic(auto, unfolding(refusal::specs::Answer::then))]
pub fn heronspan_next_imm_code_with_code(code: &[u8], main: u8, day: u32) -> i64
    ensures { result ≡ one_number_of two_bytes (then (flag_of main) (λ m. next_code_with_code code.now m day)) }
{
    let date = Date { day };
    one_number(crossing::flag_of(main).and_then(|main| imm::next_code_with_code(code, main, date)))
}

// The first twentieth on or after the day; for the rules of IMM months, of March, June, September or December.
#[tactic(auto, unfolding(refusal::specs::Answer::then))]
pub fn heronspan_next_twentieth(day: u32, rule: u8) -> i64
    ensures { result ≡ one_number_of itself (then (rule_of rule) (λ k. next_twentieth_of k day)) }
{
    let date = Date { day };
    one_number(crossing::rule_of(rule).and_then(|rule| steps::next_twentieth(date, rule)))
}

// The last twentieth on or before the day, as a CDS rule counts back from it.
#[tactic(auto, unfolding(refusal::specs::Answer::then))]
pub fn heronspan_previous_twentieth(day: u32, rule: u8) -> i64
    ensures { result ≡ one_number_of itself (then (rule_of rule) (λ k. previous_twentieth_of k day)) }
{
    let date = Date { day };
    one_number(crossing::rule_of(rule).and_then(|rule| steps::previous_twentieth(date, rule)))
}
