// Numbers in the bytes, high byte first.
ghost use Rattle.std.specs.Prelude.{◌≡◌, ◌+◌, ◌≤◌, ◌<◌, length, get_or};
ghost use Rattle.request.specs.Format.{four, signed16};
ghost use Rattle.request.specs.Inner.Places.{Wide, Pair};

fn wide(x: u8) -> u32
    ensures { Wide x result }
{
    x as u32
}

// The number in the two bytes from a place on.
pub(crate) fn pair_at(bytes: &[u8], p: usize) -> u32
    requires { p + 2 ≤ length bytes.now }
    ensures { Pair bytes.now p result }
{
    let high = wide(bytes[p]);
    let low = wide(bytes[p + 1]);
    high * 256 + low
}

// The number in the four bytes from a place on, with no test a byte: 4,096 closed dates are read by it.
pub(crate) fn word_at(bytes: &[u8], p: usize) -> u32
    requires { p + 4 ≤ length bytes.now }
    ensures { result ≡ four (get_or bytes.now p 0) (get_or bytes.now (p + 1) 0) (get_or bytes.now (p + 2) 0) (get_or bytes.now (p + 3) 0) }
{
    let a = wide(bytes[p]);
    let b = wide(bytes[p + 1]);
    let c = wide(bytes[p + 2]);
    let d = wide(bytes[p + 3]);
    ((a * 256 + b) * 256 + c) * 256 + d
}

// The byte at a place, 0 where there is none.
fn byte_in(body: &[u8], i: usize) -> u32
    ensures { Wide (get_or body.now i 0) result }
{
    wide(body.get(i).copied().unwrap_or(0))
}

// The number in the second and third bytes of a body, where one that is not there counts as 0.
pub(crate) fn pair_in(body: &[u8]) -> u32
    ensures { Pair body.now 1 result }
{
    byte_in(body, 1) * 256 + byte_in(body, 2)
}

// The number in the first four bytes of a body, where one that is not there counts as 0.
pub(crate) fn word_in(body: &[u8]) -> u32
    ensures { result ≡ four (get_or body.now 0 0) (get_or body.now 1 0) (get_or body.now 2 0) (get_or body.now 3 0) }
{
    ((byte_in(body, 0) * 256 + byte_in(body, 1)) * 256 + byte_in(body, 2)) * 256 + byte_in(body, 3)
}

// Sixteen bits as a signed number.
pub(crate) fn signed(n: u32) -> i32
    requires { n < 65536 }
    ensures { result ≡ signed16 n }
{
    if n < 32768 {
        return n as i32;
    }
    n as i32 - 65536
}
