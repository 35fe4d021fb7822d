// The set of phys that a source reaches.
ghost use Rattle.std.specs.Prelude.{◌≡◌};
ghost use Rattle.model.specs.Reach.{reach_set};
ghost use Rattle.words.specs.Words.{shelf_of};

use shelf::phys::phy_number;
use shelf::reach::phy_bit;
use words::WORDS;
use words::read::{number, phy_at, row};

// The set as a number: bit p stands for phy p.
pub(crate) fn reach_set(words: &[u32; WORDS], source: u32) -> u32
    ensures { result ≡ reach_set (shelf_of words.now) source }
{
    let row = row(words, source);
    let number = phy_number(number(words));
    let mut set = 0;
    // the phy's number is its bit: it is no index
    for p in 0..number {
        let numbers = phy_at(words, p);
        set = set + phy_bit(row, numbers.group, p);
    }
    set
}
