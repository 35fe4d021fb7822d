// Pieces of the shelf, put back into its words.
ghost use Rattle.std.specs.Prelude.{◌≡◌, ◌+◌, ◌*◌, ◌^◌, ◌<◌, ◌≤◌, length};
ghost use Rattle.std.specs.List.{flat_map};
ghost use Rattle.std.proofs.lemmas.List.Edits.{sets};
ghost use Rattle.model.specs.Shelf.{entry_of, put, put_device, put_store};
ghost use Rattle.model.specs.Store.{count_on, store};
ghost use Rattle.words.specs.Sizes.{monitor_words, phy_monitors, phy_words, entry_words, shelf_words};
ghost use Rattle.words.specs.Words.{low_set, monitor_over, monitors_over, head_over, counts_over, phy_over, entry_over};
ghost use Rattle.words.specs.Words.{shelf_of, laid_over};

use crate::read::low16;
use crate::{
    CHANGES, ENTRY_WORDS, EXPANDER3, FIRST_ENTRY, FIRST_PHY, MONITOR_WORDS, PHY_COUNTS,
    PHY_MONITORS, PHY_WORDS, SES0, STORE_COUNT, STORE_LAST, WORDS,
};
use counters::counts::originate;
use model::{Monitor, Phy};

// A word with another number, below SIZE, in its low bits: 1 bit where SIZE is 2, 8 where it is 0x100, 16 where it is 0x10000.
// The bits above stay.
fn set_low<const SIZE: u32>(word: u32, number: u32) -> u32
    requires size { 0 < SIZE }
    requires fits { low_set SIZE word number < 2 ^ 32 }
    ensures { result ≡ low_set SIZE word number }
{
    word / SIZE * SIZE + number
}

// a word with another number of 16 bits in its low bits: `set_low` for seven callers, each of whom would say the width and widen
fn set_low16(word: u32, number: u16) -> u32
    ensures { result ≡ low_set 0x10000 word number }
{
    set_low::<0x10000>(word, number.into())
}

// That the words of a piece end inside the shelf's stays asked of each function here and in `read`: of a type that kept it, each
// part (a phy's monitors, one of these, an entry's monitor) would have to be made anew, with as much to show at each.

// The first words of a phy, over those that begin at a place: its group, enabled or not, its four error counts.
fn head_over(words: &[u32; WORDS], at: usize, numbers: Phy) -> [u32; PHY_MONITORS]
    requires { at + phy_monitors ≤ shelf_words }
    ensures { result ≡ head_over words.now at numbers }
{
    let enabled = set_low::<2>(words[at + 1], numbers.enabled.into());
    let [invalid, disparity, lost, reset] = numbers.errors;
    [numbers.group, enabled, invalid, disparity, lost, reset]
}

// The words of a monitor.
fn monitor_over(words: &[u32; WORDS], at: usize, m: Monitor) -> [u32; MONITOR_WORDS]
    requires { at + monitor_words ≤ shelf_words }
    ensures { result ≡ monitor_over words.now at m }
{
    [
        set_low::<0x100>(words[at], m.source.into()),
        m.value,
        m.threshold,
    ]
}

// The words of its four monitors, one after another.
fn monitors_over(words: &[u32; WORDS], at: usize, numbers: Phy) -> [[u32; MONITOR_WORDS]; 4]
    requires { at + 4 * monitor_words ≤ shelf_words }
    ensures { flat_map (λ m. m) result ≡ monitors_over words.now at numbers }
{
    // Tried with `array::from_fn`: in its closure neither that the place fits its type nor that a monitor's words fit the shelf's
    // did prove (`overflow_add-at`, `monitor_over-requires`).
    let [first, second, third, fourth] = numbers.monitors;
    [
        monitor_over(words, at, first),
        monitor_over(words, at + MONITOR_WORDS, second),
        monitor_over(words, at + 2 * MONITOR_WORDS, third),
        monitor_over(words, at + 3 * MONITOR_WORDS, fourth),
    ]
}

// The words of its three broadcast counts.
fn counts_over(words: &[u32; WORDS], at: usize, numbers: Phy) -> [u32; 3]
    requires { at + 3 ≤ shelf_words }
    ensures { result ≡ counts_over words.now at numbers }
{
    [
        set_low16(words[at], numbers.change0),
        set_low16(words[at + 1], numbers.expander1),
        set_low16(words[at + 2], numbers.expander2),
    ]
}

// Writes numbers over the words, from a place on.
pub(crate) fn store(words: &mut [u32; WORDS], at: usize, numbers: &[u32])
    requires { at + length numbers.now ≤ shelf_words }
    ensures { words.new ≡ sets words.old at numbers.now }
{
    words[at..at + numbers.len()].copy_from_slice(numbers);
}

// Writes a phy's record over the words that begin at a place.
pub(crate) fn store_phy(words: &mut [u32; WORDS], at: usize, numbers: Phy)
    requires { at + phy_words ≤ shelf_words }
    ensures { words.new ≡ sets words.old at (phy_over words.old at numbers) }
{
    let head = head_over(words, at, numbers);
    let monitors = monitors_over(words, at + PHY_MONITORS, numbers);
    let counts = counts_over(words, at + PHY_COUNTS, numbers);
    store(words, at, &head);
    store(words, at + PHY_MONITORS, monitors.as_flattened());
    store(words, at + PHY_COUNTS, &counts);
}

// Another record for phy p, and another change count. Where there is no place for the phy, none is stored.
#[inline(always)]
pub fn put(words: &mut [u32; WORDS], p: u32, numbers: Phy, changes: u16)
    ensures { words.new ≡ laid_over words.old (put (shelf_of words.old) p numbers changes) }
{
    if p < 24 {
        store_phy(words, FIRST_PHY + PHY_WORDS * (p as usize), numbers);
    }
    words[CHANGES] = set_low16(words[CHANGES], changes);
}

// Other counts under FFh: Expander 3h and SES 0h.
pub fn put_device(words: &mut [u32; WORDS], expander3: u16, ses0: u16)
    ensures { words.new ≡ laid_over words.old (put_device (shelf_of words.old) expander3 ses0) }
{
    words[EXPANDER3] = set_low16(words[EXPANDER3], expander3);
    words[SES0] = set_low16(words[SES0], ses0);
}

// The words of an entry, over those that begin at a place: its phy, then its monitor.
fn entry_over(words: &[u32; WORDS], at: usize, phy: u8, m: Monitor) -> [u32; ENTRY_WORDS]
    requires { at + entry_words ≤ shelf_words }
    ensures { result ≡ entry_over words.now at (entry_of phy m) }
{
    let phy = set_low::<0x100>(words[at], phy.into());
    let [source, value, threshold] = monitor_over(words, at + 1, m);
    [phy, source, value, threshold]
}

// How many stores there were, after one more: counted on from 32 after 63.
fn count_on(count: u32) -> u32
    ensures { result ≡ count_on count }
{
    if count < 32 {
        count + 1
    } else {
        32 + (count % 32 + 1) % 32
    }
}

// "The server keeps the last 32 stored descriptors": one more entry, in place, over the oldest where there are 32. "Indexes
// run from 0001h and go from FFFFh to 0001h", as a count that is originated.
pub fn store_entry(words: &mut [u32; WORDS], phy: u8, m: Monitor)
    ensures { words.new
        ≡ laid_over words.old
        (put_store (shelf_of words.old) (store (shelf_of words.old).store (entry_of phy m))) }
{
    let count = words[STORE_COUNT];
    let at = FIRST_ENTRY + ENTRY_WORDS * ((count % 32) as usize);
    let entry = entry_over(words, at, phy, m);
    store(words, at, &entry);
    let word = words[STORE_LAST];
    words[STORE_LAST] = set_low16(word, originate(low16(word)));
    words[STORE_COUNT] = count_on(count);
}
