// The words of a fresh shelf, as a start writes them. No shelf is made: one phy's record after another is written.
ghost use Rattle.std.specs.Prelude.{◌≡◌, ◌∷◌, ◌++◌, map, length, drop, replicate};
ghost use Rattle.std.proofs.lemmas.List.Edits.{sets};
ghost use Rattle.model.specs.Bytes.{byte};
ghost use Rattle.model.specs.Shelf.{fresh_phys, fresh_shelf};
ghost use Rattle.words.specs.Sizes.{first_phy, shelf_words};
ghost use Rattle.words.specs.Words.{phys_over, eight, words_of};

use crate::store::{store, store_phy};
use crate::{CHANGES, FIRST_PHY, FIRST_ROW, IDENTIFIER, NUMBER, PHY_WORDS, WORDS};
use shelf::phys::fresh_phy;
use shelf::start::start_group;

// Writes the words of the fresh phys over those that are there, each at its place.
fn lay_phys(words: &mut [u32; WORDS], number: u32, groups: [u32; 24])
    ensures { words.new ≡ sets words.old first_phy (phys_over words.old (fresh_phys number groups)) }
{
    // the phy's number, which names its group and its place: it is no index of a list that could be walked
    for p in 0..24u32 {
        let fresh = fresh_phy(start_group(number, groups, p));
        store_phy(words, FIRST_PHY + PHY_WORDS * (p as usize), fresh);
    }
}

// The device wide words of a fresh shelf: "the change count is 0001h, every other number is 0".
fn device_words(number: u32, identifier: [u8; 8]) -> [u32; FIRST_ROW]
    ensures { result ≡ number ∷ 0x0001 ∷ 0 ∷ 0 ∷ map (byte identifier) eight }
{
    let mut device = [0; FIRST_ROW];
    device[NUMBER] = number;
    device[CHANGES] = 0x0001;
    device[IDENTIFIER..].copy_from_slice(&identifier.map(u32::from));
    device
}

// Writes the words before the phys: the device wide ones, and the 32 rows.
fn lay_front(words: &mut [u32; WORDS], device: [u32; FIRST_ROW], table: [u32; 32])
    ensures { words.new ≡ device ++ table ++ drop first_phy words.old }
{
    store(words, 0, &device);
    store(words, FIRST_ROW, &table);
}

// Writes all words of a fresh shelf: every bit above a number is 0. (The four of a start, as `start` of `server` has them.)
pub fn lay_fresh(
    words: &mut [u32; WORDS],
    number: u32,
    groups: [u32; 24],
    table: [u32; 32],
    identifier: [u8; 8],
)
    ensures { words.new ≡ words_of (fresh_shelf number groups table identifier) }
{
    let device = device_words(number, identifier);
    words.fill(0);
    lay_phys(words, number, groups);
    lay_front(words, device, table);
}
