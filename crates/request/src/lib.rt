// Requests as bytes: tagged fields, each framed by its length.
#![tactic(auto)]

ghost use Rattle.std.specs.Prelude.{length};
ghost use Rattle.request.specs.Format.{decoded};
ghost use Rattle.request.specs.Inner.Places.{PlacesKept, placed, Blank};
ghost use Rattle.request.specs.Decode.{Decodes};
ghost use Rattle.request.specs.Encode.{Encodes, encoded};

use asking::{Bodies, asked_from};
use refusal::Refusal;
use steps::Request;

// The tags of the fields.
mod tags;
// Numbers in the bytes, high byte first.
mod numbers;
// What a field's body may be.
pub mod bodies;
// The fields in front of FF.
mod fields;
// What the fields ask for.
mod asking;
// What bodies without their headers ask for.
pub mod stored;
// The fields written.
mod writing;

// What bytes ask for: the request, and how many closed dates stand in the lent list.
#[derive(Clone, Copy)]
pub struct Decoded {
    pub request: Request,
    pub closed: usize,
}

// Bodies in the bytes, each behind its header, by their places at their tags; 0 is no place, as `body_at` of specs/Inner/Places has it.
#[derive(Clone, Copy)]
struct Placed<'a> {
    bytes: &'a [u8],
    places: &'a [usize],
}

impl<'a> Bodies for Placed<'a> {
    ghost body_of = { λ s. placed s.bytes.now s.places.now };

    ghost sound = { λ s. PlacesKept s.bytes.now s.places.now };

    fn body<'b>(&'b self, left_out: &'b [u8], tag: u8) -> &'b [u8] {
        let place = self.places.get(tag as usize).copied().unwrap_or(0);
        if place == 0 {
            return left_out;
        }
        let size = numbers::pair_at(self.bytes, place - 2) as usize;
        &self.bytes[place..place + size]
    }
}

fn read(bytes: &[u8], places: &mut [usize], closed: &mut [u32]) -> Result<Decoded, Refusal>
    requires { Blank places.old }
    ensures { Decodes (decoded bytes.now (length closed.old)) result closed.old closed.new }
{
    if 20000 < bytes.len() {
        return Err(Refusal::Request);
    }
    if fields::find(bytes, places) {
        return asked_from(&Placed { bytes, places }, closed);
    }
    Err(Refusal::Request)
}

// The request that the bytes hold, with its closed dates written over the start of the lent list. A refusal, 17 before 14, leaves
// the list as it was.
pub fn decode(bytes: &[u8], closed: &mut [u32]) -> Result<Decoded, Refusal>
    ensures { Decodes (decoded bytes.now (length closed.old)) result closed.old closed.new }
{
    let mut places = [0usize; 12];
    read(bytes, &mut places, closed)
}

// Writes the request's bytes, every field among them, over the start of the lent list, and answers how many. A refusal leaves the list as it was: 17 for
// what the format cannot say, then 14.
pub fn encode(request: Request, closed: &[u32], out: &mut [u8]) -> Result<usize, Refusal>
    ensures { Encodes (encoded request closed.now (length out.old)) result out.old out.new }
{
    let count = closed.len();
    if !writing::is_sayable(&request, count) {
        return Err(Refusal::Request);
    }
    let size = 60 + count * 4;
    if out.len() < size {
        return Err(Refusal::Room);
    }
    writing::put_request(&request, closed, out);
    Ok(size)
}
