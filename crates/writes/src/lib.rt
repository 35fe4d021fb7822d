// The two writes on one phy: what an accepted 91h or 93h does to the phy's record, and what the
// descriptors of a 93h say.
//
// A record goes in by value, and comes back in one that also says whether Change was originated, and what is stored
// (#101). Each public function is proved equal to a definition of the model
// (crates/model/specs), and bears its name. None asks anything of its caller.

#![tactic(auto)]

pub mod configure;
pub mod control;
pub mod descriptors;
mod effects;
pub mod operation;
