// Bytes put at a place of a lent list; each function answers the place behind them.
ghost use Rattle.std.specs.Prelude.{◌+◌, ◌≤◌, ◌<◌, length};
ghost use Rattle.publishing.specs.File.{two_digits};
ghost use Rattle.publishing.specs.Inner.Put.{Put, PutDate};

use date::civil;

pub(crate) fn put_bytes(text: &[u8], at: usize, out: &mut [u8]) -> usize
    requires { at + length text.now ≤ length out.old }
    ensures { Put text.now at out.old result out.new }
{
    let end = at + text.len();
    out[at..end].copy_from_slice(text);
    end
}

// The last two digits of a number.
fn put_two(n: u32, at: usize, out: &mut [u8]) -> usize
    requires { at + 2 ≤ length out.old }
    ensures { Put (two_digits n) at out.old result out.new }
{
    let tens = (48 + n / 10 % 10) as u8;
    let ones = (48 + n % 10) as u8;
    put_bytes(&[tens, ones], at, out)
}

pub(crate) fn put_date(day: u32, at: usize, out: &mut [u8]) -> usize
    requires { at + 8 ≤ length out.old }
    ensures { PutDate day at out.old result out.new }
{
    let f = civil::fields_of(day);
    let year = put_two(f.year / 100, at, out);
    let month = put_two(f.year, year, out);
    let last = put_two(f.month, month, out);
    put_two(f.day, last, out)
}
