// The lines of a script: what each is, and what a request's line asks.
ghost use Rattle.std.specs.Prelude.{◌≡◌};
ghost use Rattle.script.specs.Line.{line_kind, read_asked, read_hex};

use crate::text::{Reading, read, read_on, unread};
use gate::bytes::byte_at;
use model::LEAST_BUFFER;

// A heading, an operation of one of three kinds, or nothing to do.
#[derive(Clone, Copy)]
pub enum Line {
    Heading,
    Request,
    Reach,
    Report,
    Idle,
}

// What a line is. An empty line and a remark are nothing to do; a heading begins with no space; the
// first letter of an operation tells its kind.
#[tactic(auto, unfolding(crate::specs::Line::line_kind))]
pub fn line_kind(line: &[u8]) -> Line
    ensures { result ≡ line_kind line.now }
{
    if line.is_empty() || read(line, unread(), b"  - ").is_ok() {
        return Line::Idle;
    }
    if byte_at(line, 0) != b' ' {
        return Line::Heading;
    }
    match byte_at(line, 2) {
        b'f' => Line::Request,
        b'r' => Line::Reach,
        _ => Line::Report,
    }
}

// What a request's line asks: the source group, the length of the lent buffer, and the reading past them.
#[derive(Clone, Copy)]
pub struct Asked {
    pub source: u32,
    pub room: usize,
    pub after: Reading,
}

// Reads `from 8:` or `from 1, buffer of 1027:`. The length of the lent buffer is the least that H5 allows
// where it is left out. What does not fit is an `Err`, read as though the length were left out.
#[tactic(auto, unfolding(crate::specs::Line::read_asked))]
pub fn read_asked(line: &[u8], from: Reading) -> Result<Asked, Asked>
    ensures { result ≡ read_asked line.now from }
{
    let source = read(line, from, b"from #");
    if let Ok(told) = read_on(line, source, b", buffer of #:") {
        return Ok(Asked {
            source: told.second,
            room: told.third as usize,
            after: told,
        });
    }
    let left_out = |untold: Reading| Asked {
        source: untold.third,
        room: LEAST_BUFFER,
        after: untold,
    };
    read_on(line, source, b":").map(left_out).map_err(left_out)
}

// Reads one byte of a frame, and gives the reading past it too; of what does not fit, or is above FFh, the reading alone.
#[tactic(auto, unfolding(crate::specs::Line::read_hex))]
pub fn read_hex(line: &[u8], from: Reading) -> Result<(u8, Reading), Reading>
    ensures { result ≡ read_hex line.now from }
{
    let next = read(line, from, b" $")?;
    let byte = u8::try_from(next.third).or(Err(next))?;
    Ok((byte, next))
}
