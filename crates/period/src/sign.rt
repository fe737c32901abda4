// The sign and the size of a signed count.
ghost use Rattle.std.specs.Prelude.{◌≡◌, nat_abs};
ghost use Rattle.period.specs.Period.{is_negative};

pub fn is_negative(n: i32) -> bool
    ensures { result ≡ is_negative n }
{
    n < 0
}

pub fn size(n: i32) -> u32
    ensures { result ≡ nat_abs n }
{
    if n < 0 {
        (-(n as i64)) as u32
    } else {
        n as u32
    }
}
