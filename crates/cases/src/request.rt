// The requests of the script.
use crate::told::Told;
use script::line::{read_asked, read_hex};
use script::text::Reading;
use server::serve;
use words::WORDS;

// Reads the bytes of a frame to the end of the line. A frame that there is no room for can't be read.
fn read_frame<'a>(line: &[u8], from: Reading, room: &'a mut [u8]) -> Option<&'a [u8]> {
    let mut next = from;
    let mut length = room.len();
    for (i, place) in room.iter_mut().enumerate() {
        if line.len() <= next.at {
            length = i;
            break;
        }
        (*place, next) = read_hex(line, next).ok()?;
    }
    if next.at < line.len() {
        return None;
    }
    room.get(..length)
}

// `from 8: 40 14 00 ..`, `from 1, buffer of 1027: 40 ..`. The response stands in the lent part of the buffer,
// and is never longer than it. The buffer is full of EEh before, which is in no stored response, so a byte that the
// server did not write would show.
pub(crate) fn run_request<'a>(
    words: &mut [u32; WORDS],
    line: &[u8],
    from: Reading,
    buffer: &'a mut [u8],
) -> Option<Told<'a>> {
    let asked = read_asked(line, from).ok()?;
    let mut room = [0u8; 1100];
    let frame = read_frame(line, asked.after, &mut room)?;
    buffer.fill(0xEE);
    let lent = buffer.get_mut(..asked.room)?;
    match serve(words, asked.source, frame, lent) {
        Ok(size) => Some(Told::Response(lent.get(..size)?)),
        Err(house) => Some(Told::Refused(house)),
    }
}
