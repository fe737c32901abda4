// The flag of a period.
ghost use Rattle.std.specs.Prelude.{◌≡◌};
ghost use Rattle.steps.specs.Finish.{same_flag};

// 1 if a date equals the one that a whole tenor leads to.
pub fn same_flag(a: u32, b: u32) -> u8
    ensures { result ≡ same_flag a b }
{
    u8::from(a == b)
}
