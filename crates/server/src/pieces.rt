// What is read of the shelf to decide a request or a report.
ghost use Rattle.std.specs.Prelude.{◌≡◌};
ghost use Rattle.model.specs.Reach.{reaches};
ghost use Rattle.model.specs.Results.{grounds};
ghost use Rattle.model.specs.Shelf.{exists};
ghost use Rattle.words.specs.Words.{shelf_of};

use gate::zone::smp_row_reaches;
use model::Grounds;
use shelf::phys::exists;
use words::WORDS;
use words::read::{changes, number, phy_at, row};

// the phy exists
pub(crate) fn there(words: &[u32; WORDS], phy: u32) -> bool
    ensures { result ≡ exists (shelf_of words.now) phy }
{
    exists(number(words), phy)
}

// "A source reaches a phy if its row has the bit of the phy's group."
fn reached(words: &[u32; WORDS], source: u32, phy: u32) -> bool
    ensures { result ≡ reaches (shelf_of words.now) source phy }
{
    smp_row_reaches(row(words, source), phy_at(words, phy).group)
}

// What may decide a request from a source that names this phy. Group 1 has management access rights.
pub(crate) fn grounds(words: &[u32; WORDS], source: u32, phy: u8) -> Grounds
    ensures { result ≡ grounds (shelf_of words.now) source phy }
{
    Grounds {
        changes: changes(words),
        there: there(words, phy.into()),
        reached: reached(words, source, phy.into()),
        management: source == 1,
    }
}
