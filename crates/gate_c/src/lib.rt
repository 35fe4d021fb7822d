// The two parts that need no device, for C: `gate` as a static library.
//
// A crate is a library for other crates or an archive for C, and not both. So each function here has the name that C calls,
// calls the function of `gate` that has the same name, and promises what that one promises, word for word. C's side of the
// interface is firmware/smp_gate.h.

#![tactic(auto)]

ghost use Rattle.std.specs.Prelude.{◌≡◌};
ghost use Rattle.model.specs.Zone.{row_reaches};
ghost use Rattle.gate.specs.FrameNumber.{frame_number};

// What the C firmware is told of a frame: the function and H6, H10, 01h, 03h or nothing wrong, as one
// number in four parts.
#[unsafe(no_mangle)]
pub extern "C" fn smp_judge_frame(frame: &[u8]) -> u32
    ensures { result ≡ frame_number frame.now }
{
    gate::frame::smp_judge_frame(frame)
}

// "whether a given row reaches a given group (no, for a group above 31)"
#[unsafe(no_mangle)]
pub extern "C" fn smp_row_reaches(row: u32, group: u32) -> bool
    ensures { result ≡ row_reaches row group }
{
    gate::zone::smp_row_reaches(row, group)
}
