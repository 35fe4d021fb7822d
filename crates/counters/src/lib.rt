// The counters of one phy: which event sources there are, how a count moves, what an event report is told,
// and what it, and originating Change, do to the phy's numbers.
//
// Each public function is proved equal to a definition of the model (crates/model/specs), and bears
// its name. None asks anything of its caller.

#![tactic(auto)]

pub mod counts;
pub mod phy;
pub mod report;
pub mod sources;
