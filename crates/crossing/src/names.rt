// The names of the refusals, in ASCII.
ghost use Rattle.std.specs.Prelude.{◌≡◌, ◌≤◌, length};
ghost use Rattle.steps.specs.Build.{over};
ghost use Rattle.crossing.specs.Names.{name_of, Spelled};

use crate::answers;
use refusal::Refusal;

// The name of the refusal that an answer gives; empty where it gives none.
fn name_in(answer: i64) -> &'static str
    ensures name { result.now ≡ name_of answer }
    ensures narrow { length result.now ≤ 16 }
{
    if 0 <= answer {
        return "";
    }
    let number = answer.unsigned_abs();
    if 255 < number {
        return "";
    }
    match Refusal::try_from(number as u8) {
        Ok(refusal) => refusal.name(),
        Err(_) => "",
    }
}

// Letter by letter: for `copy_from_slice` the archive asks whoever links it for `memmove`, and for nothing else of that name.
fn put_letters(name: &[u8], text: &mut [u8])
    requires { length name.now ≤ length text.old }
    ensures { text.new ≡ over name.now text.old }
{
    for k in 0..name.len() {
        text[k] = name[k];
    }
}

fn put_name(name: &[u8], text: &mut [u8]) -> i64
    requires { length name.now ≤ 16 }
    ensures { Spelled name.now result text.old text.new }
{
    if text.len() < name.len() {
        return answers::refused(Refusal::Room);
    }
    put_letters(name, text);
    name.len() as i64
}

// Writes the name of the refusal that an answer gives over the start of `text`, and answers how many letters it has. An answer
// that is no refusal has the empty name.
pub fn put_refusal(answer: i64, text: &mut [u8]) -> i64
    ensures { Spelled (name_of answer) result text.old text.new }
{
    put_name(name_in(answer).as_bytes(), text)
}
