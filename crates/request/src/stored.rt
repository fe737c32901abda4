// Requests whose bodies lie back to back, without their headers, each from a place that is told.
ghost use Rattle.std.specs.Prelude.{◌≡◌, ◌+◌, ◌≤◌, leb, length};
ghost use Rattle.request.specs.Decode.{Decodes};
ghost use Rattle.request.specs.Stored.{width_of, stored, stored_in};

use crate::asking::{Bodies, asked_from};
use crate::{Decoded, tags};
use refusal::Refusal;

// Bodies in a buffer, by their places at their tags, with so many closed dates.
#[derive(Clone, Copy)]
struct Stored<'a> {
    bytes: &'a [u8],
    places: &'a [u16],
    count: u16,
}

// How long the body of each tag before 0B is.
pub const WIDTHS: [u16; 11] = [0, 4, 4, 3, 1, 1, 1, 1, 4, 4, 1];

// How long the body of a tag is, where there are so many closed dates.
#[tactic(auto, unfolding(crate::specs::Stored::width_of, crate::specs::Format::pick))]
fn width_of(count: u16, tag: u8) -> u32
    ensures { result ≡ width_of count tag }
{
    if tag == tags::CLOSED {
        return count as u32 * 4;
    }
    WIDTHS.get(tag as usize).copied().unwrap_or(0) as u32
}

// Whether so many bytes from a place on are within the first 20,000.
fn lies(place: u16, size: u32) -> bool
    ensures { result ≡ leb (place + size) 20000 }
{
    place as u64 + size as u64 <= 20000
}

impl<'a> Bodies for Stored<'a> {
    ghost body_of = { λ s. stored s.bytes.now s.places.now s.count };

    ghost sound = { λ s. (20000 ≤ length s.bytes.now) × (length s.places.now ≡ 12) };

    fn body<'b>(&'b self, left_out: &'b [u8], tag: u8) -> &'b [u8] {
        if tag < 12 {
            let place = self.places[tag as usize];
            let size = width_of(self.count, tag);
            if lies(place, size) {
                let at = place as usize;
                return &self.bytes[at..at + size as usize];
            }
        }
        left_out
    }
}

// The request whose bodies lie in the bytes, at least 20,000, each from the place that stands at its tag, with so many closed
// dates. A place from which its body would pass the 20,000th byte is none, and its field was left out. The closed dates are
// written over the start of the list. Refusals: 18, then as in `decode`.
pub fn read(
    bytes: &[u8],
    places: &[u16; 12],
    count: u16,
    list: &mut [u32],
) -> Result<Decoded, Refusal>
    ensures { Decodes (stored_in bytes.now places.now count (length list.old)) result list.old list.new }
{
    if bytes.len() < 20000 {
        return Err(Refusal::Buffer);
    }
    asked_from(
        &Stored {
            bytes,
            places,
            count,
        },
        list,
    )
}
