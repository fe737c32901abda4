// Reads one request from standard input, and prints its schedule or its refusal.
#![tactic(auto)]

ghost use Rattle.std.specs.Prelude.{◌≡◌, length};

use std::io;
use std::io::Write;

// So many bytes of standard input are read, and none after them.
const INPUT: usize = 65536;

// Every text has room in so many (`reply::whole`).
const TEXT: usize = 106519;

// Room for so many bytes. The `ensures` gives only the length, which lending an array as a slice needs. Three programs have it: so weak
// a contract lets no wrong body through, so that a shared one could have no edit that is refused.
fn room<const N: usize>() -> [u8; N]
    ensures { N ≡ length result }
{
    [0; N]
}

fn main(rt: HostRuntime) -> io::Result<()> {
    let mut input = room::<INPUT>();
    let mut text = room::<TEXT>();
    let got = reading::fill(&mut rt.reader(), &mut input)?;
    let count = reply::whole(&input[..got], &mut text);
    // Where nobody takes the text, as at a closed pipe, the program ends in silence.
    let _ = io::writer(&rt).write_all(&text[..count]);
    Ok(())
}
