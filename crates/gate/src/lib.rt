// The two parts that need no device: the frame judge and the row test.
//
// C calls `smp_judge_frame` and `smp_row_reaches`. The shelf, the server and 06h's list use this very
// row test, and the server takes its requests from `judge`, on which the number for C rests. Beside them
// stands what other crates need too: the bytes of a frame, and document 01's numbers. Each promise but
// that of `word_of`, which is a sum, cites definitions: those of the model, and for the number for C those
// of specs/FrameNumber. No public function asks anything of its caller.

#![tactic(auto)]

pub mod bytes;
pub mod frame;
mod function;
pub mod numbers;
pub mod zone;
