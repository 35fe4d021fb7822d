// Pieces of the shelf, read out of its words.
ghost use Rattle.std.specs.Prelude.{◌≡◌, ◌+◌, ◌*◌, ◌%◌, ◌<◌, ◌≤◌};
ghost use Rattle.model.specs.Shelf.{phy_at};
ghost use Rattle.model.specs.Store.{entry_at};
ghost use Rattle.model.specs.Zone.{row};
ghost use Rattle.words.specs.Sizes.{monitor_words, phy_words, entry_words, shelf_words};
ghost use Rattle.words.specs.Words.{monitor_of, monitors_of, phy_of, entry_from, shelf_of};

use crate::{
    CHANGES, ENTRY_WORDS, EXPANDER3, FIRST_ENTRY, FIRST_PHY, FIRST_ROW, IDENTIFIER, MONITOR_WORDS,
    NUMBER, PHY_COUNTS, PHY_ERRORS, PHY_MONITORS, PHY_WORDS, SES0, STORE_COUNT, STORE_LAST, WORDS,
};
use model::{Entry, Monitor, Phy};
use shelf::phys::fresh_phy;

// A number in the low bits of its word, below SIZE. The bits above are not read.
fn low<const SIZE: u32>(word: u32) -> u32
    requires { 0 < SIZE }
    ensures { result ≡ word % SIZE }
{
    word % SIZE
}

// a number of 16 bits, in the low bits of its word: `low` for a caller outside, whose number it then is
pub fn low16(word: u32) -> u16
    ensures { result ≡ word % 0x10000 }
{
    low::<0x10000>(word) as u16
}

// The phy number. (This and the next name each its word; one function over the place would promise a field that depends on a number.)
#[tactic(auto, unfolding(crate::specs::Words::shelf_of))]
pub fn number(words: &[u32; WORDS]) -> u32
    ensures { result ≡ (shelf_of words.now).number }
{
    words[NUMBER]
}

// The expander change count.
#[tactic(auto, unfolding(crate::specs::Words::shelf_of))]
pub fn changes(words: &[u32; WORDS]) -> u16
    ensures { result ≡ (shelf_of words.now).changes }
{
    low16(words[CHANGES])
}

// Expander 3h: reduced functionality, under FFh.
#[tactic(auto, unfolding(crate::specs::Words::shelf_of))]
pub fn expander3(words: &[u32; WORDS]) -> u16
    ensures { result ≡ (shelf_of words.now).expander3 }
{
    low16(words[EXPANDER3])
}

// SES 0h, under FFh.
#[tactic(auto, unfolding(crate::specs::Words::shelf_of))]
pub fn ses0(words: &[u32; WORDS]) -> u16
    ensures { result ≡ (shelf_of words.now).ses0 }
{
    low16(words[SES0])
}

// The monitor whose words begin at a place.
fn monitor(words: &[u32; WORDS], at: usize) -> Monitor
    requires { at + monitor_words ≤ shelf_words }
    ensures { result ≡ monitor_of words.now at }
{
    Monitor {
        source: low::<0x100>(words[at]) as u8,
        value: words[at + 1],
        threshold: words[at + 2],
    }
}

// Its four monitors, one after another.
fn monitors(words: &[u32; WORDS], at: usize) -> [Monitor; 4]
    requires { at + 4 * monitor_words ≤ shelf_words }
    ensures { result ≡ monitors_of words.now at }
{
    std::array::from_fn(|i| monitor(words, at + MONITOR_WORDS * i))
}

// The phy whose words begin at a place.
fn phy(words: &[u32; WORDS], at: usize) -> Phy
    requires { at + phy_words ≤ shelf_words }
    ensures { result ≡ phy_of words.now at }
{
    let counts = at + PHY_COUNTS;
    Phy {
        group: words[at],
        enabled: low::<2>(words[at + 1]) == 1,
        errors: std::array::from_fn(|i| words[at + PHY_ERRORS + i]),
        monitors: monitors(words, at + PHY_MONITORS),
        change0: low16(words[counts]),
        expander1: low16(words[counts + 1]),
        expander2: low16(words[counts + 2]),
    }
}

// Phy p of the shelf. Where there is no phy stands a fresh one of group 0.
pub fn phy_at(words: &[u32; WORDS], p: u32) -> Phy
    ensures { result ≡ phy_at (shelf_of words.now) p }
{
    if 24 <= p {
        return fresh_phy(0);
    }
    phy(words, FIRST_PHY + PHY_WORDS * (p as usize))
}

// Row g of the table; past the last there is none, and so no bit.
pub fn row(words: &[u32; WORDS], g: u32) -> u32
    ensures { result ≡ row (shelf_of words.now).table g }
{
    if 31 < g {
        return 0;
    }
    words[FIRST_ROW + (g as usize)]
}

// The enclosure identifier, byte by byte.
pub fn identifier(words: &[u32; WORDS]) -> [u8; 8]
    ensures { result ≡ (shelf_of words.now).identifier }
{
    std::array::from_fn(|i| low::<0x100>(words[IDENTIFIER + i]) as u8)
}

// The last index of the list of stored peak events, "0000h if none".
#[tactic(auto, unfolding(crate::specs::Words::shelf_of, crate::specs::Words::store_of))]
pub fn last(words: &[u32; WORDS]) -> u16
    ensures { result ≡ (shelf_of words.now).store.last }
{
    low16(words[STORE_LAST])
}

// How many stores there were, counted on from 32 after 63.
#[tactic(auto, unfolding(crate::specs::Words::shelf_of, crate::specs::Words::store_of))]
pub fn count(words: &[u32; WORDS]) -> u32
    ensures { result ≡ (shelf_of words.now).store.count }
{
    words[STORE_COUNT]
}

// The entry whose words begin at a place: its phy, then its monitor.
fn entry(words: &[u32; WORDS], at: usize) -> Entry
    requires { at + entry_words ≤ shelf_words }
    ensures { result ≡ entry_from words.now at }
{
    Entry {
        phy: low::<0x100>(words[at]) as u8,
        monitor: monitor(words, at + 1),
    }
}

// The entry at place i of the list, in the order in which they are kept; past the 32 there is none. (As `phy_at` and `row`, with another
// piece, place and answer past the last: one function would need a trait of the piece, whose laws each of them would show.)
pub fn entry_at(words: &[u32; WORDS], i: u32) -> Entry
    ensures { result ≡ entry_at (shelf_of words.now).store i }
{
    if 32 <= i {
        // where there is no entry stands one of 0 throughout
        return Entry::default();
    }
    entry(words, FIRST_ENTRY + ENTRY_WORDS * (i as usize))
}
