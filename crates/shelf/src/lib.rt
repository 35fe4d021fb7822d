// Pieces of the shelf: which phys there are and a fresh one, a legal table, what a start is told and which group
// each phy then gets, and what a phy adds to the set of those reached. Where the shelf is kept is the matter of
// the crates above.
//
// Each public function is proved equal to a definition of the model (crates/model/specs), and bears its name, or
// says of the phy number alone what the definitions say of a shelf (`phy_number`, `exists`). None asks
// anything of its caller.

#![tactic(auto)]

pub mod phys;
pub mod reach;
pub mod start;
pub mod table;
