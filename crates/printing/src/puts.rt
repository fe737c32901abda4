// Bytes put at a place of a lent list; each function answers the place behind them.
ghost use Rattle.std.specs.Prelude.{◌+◌, ◌≤◌, ◌<◌, [], ◌∷◌, length};
ghost use Rattle.printing.specs.Text.{two_digits};
ghost use Rattle.printing.specs.Put.{Put};

pub(crate) fn put_byte(b: u8, at: usize, out: &mut [u8]) -> usize
    requires { at < length out.old }
    ensures { Put (b ∷ []) at out.old result out.new }
{
    out[at] = b;
    at + 1
}

pub(crate) fn put_bytes(text: &[u8], at: usize, out: &mut [u8]) -> usize
    requires { at + length text.now ≤ length out.old }
    ensures { Put text.now at out.old result out.new }
{
    let end = at + text.len();
    out[at..end].copy_from_slice(text);
    end
}

// The last two digits of a number.
pub(crate) fn put_two(n: u32, at: usize, out: &mut [u8]) -> usize
    requires { at + 2 ≤ length out.old }
    ensures { Put (two_digits n) at out.old result out.new }
{
    let tens = (48 + n / 10 % 10) as u8;
    let ones = (48 + n % 10) as u8;
    let next = put_byte(tens, at, out);
    put_byte(ones, next, out)
}
