// Writing over a frame: some bytes, from a place on, where they fit.
ghost use Rattle.std.specs.Prelude.{◌≡◌, [], ◌∷◌, ◌+◌, ◌≤◌, length};
ghost use Rattle.std.proofs.lemmas.List.Edits.{sets};
ghost use Rattle.model.specs.Bytes.{two};

use crate::wire::two;

#[tactic(auto, using(crate::proofs::Laid::laid_over_lem))]
pub(crate) fn lay<const N: usize>(frame: &mut [u8; N], at: usize, bytes: &[u8])
    requires { at + length bytes.now ≤ N }
    ensures { frame.new ≡ sets frame.old at bytes.now }
{
    let part = &mut frame[..];
    part[at..at + bytes.len()].copy_from_slice(bytes);
}

// "Response byte 0 is 41h, byte 1 the function, byte 2 the result, byte 3 the number of dwords that
// follow": the head of an accepted response, with "the change count in bytes 4 and 5".
pub(crate) fn head<const N: usize>(frame: &mut [u8; N], function: u8, dwords: u8, changes: u16)
    requires { 6 ≤ N }
    ensures { frame.new ≡ sets (sets frame.old 0 (0x41 ∷ function ∷ 0x00 ∷ dwords ∷ [])) 4 (two changes) }
{
    lay(frame, 0, &[0x41, function, 0x00, dwords]);
    lay(frame, 4, &two(changes));
}
