// A part of some bytes.
ghost use Rattle.std.specs.Prelude.{min, ◌≡◌, length};
ghost use Rattle.spelling.specs.Part.{Counts};

// This many of the bytes, or all of them where there are fewer: so the first of them can be lent.
pub fn at_most(n: usize, bytes: &[u8]) -> usize
    ensures size { Counts result bytes.now }
    ensures smaller { result ≡ min n (length bytes.now) }
{
    n.min(bytes.len())
}
