// The phys of a shelf: "1 to 24 phys, numbered from 0." Which there are, and a fresh one.
ghost use Rattle.std.specs.Prelude.{◌≡◌, min, ltb};
ghost use Rattle.model.specs.Shelf.{fresh_phy};

use model::{Monitor, Phy};

// How many phys a shelf of this phy number has: "1 to 24 phys". There is room for no more.
pub fn phy_number(number: u32) -> u32
    ensures { result ≡ min number 24 }
{
    number.min(24)
}

// Phy p exists on a shelf of this phy number: they are "numbered from 0".
pub fn exists(number: u32, p: u32) -> bool
    ensures { result ≡ ltb p (min number 24) }
{
    p < phy_number(number)
}

// A phy at the start: "All phys are enabled, .. every other number is 0, and every monitor's source is 00h."
pub fn fresh_phy(group: u32) -> Phy
    ensures { result ≡ fresh_phy group }
{
    Phy {
        group,
        enabled: true,
        errors: [0; 4],
        monitors: [Monitor::default(); 4],
        change0: 0,
        expander1: 0,
        expander2: 0,
    }
}
