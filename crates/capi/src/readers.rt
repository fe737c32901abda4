// Requests off the wire: a reader that the caller keeps, lent to each call.
ghost use Rattle.fed.specs.Handed.{Renewed, Fed, Ended};

// Makes the reader a new one, whatever it was. Answers 0.
pub fn heronspan_reset(reader: &mut [u16; 46]) -> i64
    ensures { Renewed reader.old result reader.new }
{
    fed::reset(reader)
}

// Takes in a part of the bytes, as `feeding::feed`: 0 to go on; once the request was declared finished, the finish's answer.
pub fn heronspan_feed(
    reader: &mut [u16; 46],
    part: &[u8],
    buffer: &mut [u8],
    closed: &mut [u32],
) -> i64
    ensures { Fed reader.old part.now buffer.old closed.old result reader.new buffer.new closed.new }
{
    fed::feed(reader, part, buffer, closed)
}

// Declares the request finished, as `feeding::finish`: 1, and its thirteen numbers stand in the reader; or minus the refusal.
pub fn heronspan_finish(reader: &mut [u16; 46], buffer: &[u8], closed: &mut [u32]) -> i64
    ensures { Ended reader.old buffer.now closed.old result reader.new closed.new }
{
    fed::finish(reader, buffer, closed)
}
