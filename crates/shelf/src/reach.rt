// The set of a reach query: "the set of phys it reaches as a 32-bit number". What each phy adds to it.
ghost use Rattle.std.specs.Prelude.{◌≡◌, cond, ◌^◌, ltb};
ghost use Rattle.model.specs.Zone.{row_reaches};

use gate::zone::smp_row_reaches;

// What phy p adds to the set: bit p if the row reaches its group, and else nothing. There is no phy past 23.
pub fn phy_bit(row: u32, group: u32, p: u32) -> u32
    ensures { result ≡ cond (ltb p 24) (cond (row_reaches row group) (2 ^ p) 0) 0 }
{
    if p < 24 && smp_row_reaches(row, group) {
        1 << p
    } else {
        0
    }
}
