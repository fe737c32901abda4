// Codes of IMM dates: the month's letter, then the last digit of the year.
ghost use Rattle.std.specs.Prelude.{◌≡◌, nat_eq};
ghost use Rattle.std.specs.List.{position_from};
ghost use Rattle.imm.specs.Imm.{main_month, in_cycle, letters, month_of, is_pair, code_of};

// The letters of January to December.
const LETTERS: [u8; 12] = [
    b'F', b'G', b'H', b'J', b'K', b'M', b'N', b'Q', b'U', b'V', b'X', b'Z',
];

// The bytes of a code: a capital letter and a digit.
#[derive(Clone, Copy, Debug, PartialEq, Eq)]
pub struct Code {
    pub letter: u8,
    pub digit: u8,
}

// Where a capital stands among the letters.
#[tactic(auto, unfolding(crate::specs::Imm::letters))]
fn place_of(capital: u8) -> Option<usize>
    ensures { result ≡ position_from (λ l. nat_eq l capital) 0 letters }
{
    LETTERS.iter().position(|l| *l == capital)
}

// The month whose letter it is, either case; 13 for a byte that is no month's letter, as definition `month_of` counts it.
pub(crate) fn month_of(letter: u8) -> u32
    ensures { result ≡ month_of letter }
{
    let place = place_of(letter.to_ascii_uppercase()).unwrap_or(LETTERS.len());
    place as u32 + 1
}

#[tactic(auto, unfolding(crate::specs::Imm::main_month))]
fn is_main_month(month: u32) -> bool
    ensures { result ≡ main_month month }
{
    month == 3 || month == 6 || month == 9 || month == 12
}

// Whether a month is one of the cycle: each is, but for the main cycle.
#[tactic(auto, unfolding(crate::specs::Imm::in_cycle))]
pub(crate) fn in_cycle(main: bool, month: u32) -> bool
    ensures { result ≡ in_cycle main month }
{
    !main || is_main_month(month)
}

#[tactic(auto, unfolding(crate::specs::Imm::is_pair, crate::specs::Imm::is_digit))]
pub(crate) fn is_pair(main: bool, letter: u8, digit: u8) -> bool
    ensures { result ≡ is_pair main letter digit }
{
    let month = month_of(letter);
    month <= 12 && digit.is_ascii_digit() && in_cycle(main, month)
}

// The code of the month and year that day n lies in.
pub(crate) fn code_of(n: u32) -> Code
    ensures { result ≡ code_of n }
{
    let f = date::civil::fields_of(n);
    let place = (f.month - 1) as usize;
    Code {
        letter: LETTERS[place],
        digit: (f.year % 10) as u8 + 48,
    }
}
