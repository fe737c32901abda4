// Numbers in decimal digits, without leading zeros.
ghost use Rattle.std.specs.Prelude.{◌≡◌, length};
ghost use Rattle.printing.specs.Put.{Spelled};

// The digits of a number, put at the end of 20 bytes; the answer is where they start.
pub(crate) fn spell(n: u64, digits: &mut [u8]) -> usize
    requires { length digits.old ≡ 20 }
    ensures { Spelled n result digits.new }
{
    let mut left = n;
    let mut at = 20;
    // The number that is left decides when it ends, and not the place.
    while 9 < left {
        at -= 1;
        digits[at] = (48 + left % 10) as u8;
        left /= 10;
    }
    at -= 1;
    digits[at] = (48 + left) as u8;
    at
}
