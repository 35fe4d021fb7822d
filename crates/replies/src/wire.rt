// "Numbers on the wire are big-endian": a number in two bytes.
ghost use Rattle.std.specs.Prelude.{◌≡◌};
ghost use Rattle.model.specs.Bytes.{two};

// a number in two bytes: std's `to_be_bytes`, under the name that docs/SETTLED.md has for it
pub fn two(n: u16) -> [u8; 2]
    ensures { result ≡ two n }
{
    n.to_be_bytes()
}
