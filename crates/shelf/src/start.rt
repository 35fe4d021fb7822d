// "A start takes phy number, 24 groups (those past the phy number are ignored), table and identifier." The
// group that each phy gets, and what a start is told.
ghost use Rattle.std.specs.Prelude.{◌≡◌, ◌≤◌};
ghost use Rattle.model.specs.Shelf.{start_group, groups_fit, start_taken};

use crate::table::legal_table;
use model::{House, Taken};

// The group of phy p: "24 groups (those past the phy number are ignored)". Past the phy number it is group 0.
pub fn start_group(number: u32, groups: [u32; 24], p: u32) -> u32
    ensures { result ≡ start_group number groups p }
{
    if p < number {
        groups.get(p as usize).copied().unwrap_or(0)
    } else {
        0
    }
}

// Not H2: the group of each phy is a zone group.
fn groups_fit(number: u32, groups: [u32; 24]) -> bool
    requires { number ≤ 24 }
    ensures { result ≡ groups_fit number groups }
{
    // A fold, and no `all`, which stops at the first that fails: so the compiler takes several at once.
    groups[..number as usize]
        .iter()
        .fold(true, |so_far, &group| so_far & (group <= 31))
}

// H1 "phy number not 1 to 24", H2 "a phy's group is above 31", H3 "table not legal" (Three of the four of a start, as `start` of `server`
// has them.)
#[tactic(auto, unfolding(model::specs::Shelf::start_taken))]
pub fn start_taken(number: u32, groups: [u32; 24], table: [u32; 32]) -> Taken
    ensures { result ≡ start_taken number groups table }
{
    if !(1..=24).contains(&number) {
        return Err(House::PhyNumber);
    }
    if !groups_fit(number, groups) {
        return Err(House::PhyGroup);
    }
    if !legal_table(table) {
        return Err(House::IllegalTable);
    }
    Ok(())
}
