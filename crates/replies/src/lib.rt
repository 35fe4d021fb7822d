// The responses of a fixed size, byte by byte, and the descriptors of 06h's list and of 21h's (#101), each made
// and handed back by value; and a result, sent into the lent buffer (`sending`).
//
// Each public function is proved equal to a definition of the model (crates/model/specs/Reply and
// Bytes), and bears its name. `send_result` sends what `failed` is (`Sent`, crates/replies/specs). None asks
// anything of its caller.

#![tactic(auto)]

pub mod fixed;
mod lay;
pub mod sending;
pub mod wire;
