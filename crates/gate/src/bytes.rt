// Reading the bytes of a frame.
ghost use Rattle.std.specs.Prelude.{◌≡◌, ◌+◌, ◌*◌};
ghost use Rattle.model.specs.Bytes.{byte};

// The byte at a place; past the end of a frame stands 0.
pub fn byte_at(frame: &[u8], i: usize) -> u8
    ensures { result ≡ byte frame.now i }
{
    frame.get(i).copied().unwrap_or(0x00)
}

// "Numbers on the wire are big-endian": the number that two bytes stand for.
pub fn word_of(high: u8, low: u8) -> u16
    ensures { result ≡ high * 0x100 + low }
{
    u16::from_be_bytes([high, low])
}
