// Whole inputs, read into room that is lent.
#![tactic(auto)]

ghost use Rattle.std.specs.Prelude.{ℕ, ◌≡◌, ◌≤◌, ◌⊎◌, length, take, IfOk, OnErr};
ghost use Rattle.std.specs.Io.KnownBytes.{Consumes, IsAtEnd};

use std::io;
use std::io::Read;

// Reads until the room is full or the input ends, and answers how many bytes that put at the start of the room. After an error the
// bytes read before it stand there.
pub fn fill<R: Read>(input: &mut R, room: &mut [u8]) -> io::Result<usize>
    ensures within { IfOk result (λ n. n ≤ length room.new) }
    ensures bytes { IfOk result (λ n. Consumes (R.remaining input.old) (R.remaining input.new) (take n room.new)) }
    ensures end { IfOk result (λ n. (n ≡ length room.new) ⊎ IsAtEnd (R.remaining input.new)) }
    ensures err { OnErr result ((n : ℕ) × (n ≤ length room.new) × Consumes (R.remaining input.old) (R.remaining input.new) (take n room.new)) }
{
    let mut done = 0;
    // A turn goes on by as many bytes as a read put, so that no `for` says it more plainly.
    while done < room.len() {
        let n = input.read(&mut room[done..])?;
        if n == 0 {
            break;
        }
        done += n;
    }
    Ok(done)
}
