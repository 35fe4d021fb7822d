// The shelf in lent memory: words of 32 bits, in which the caller of the server keeps it, who is C: so numbers at places, and no structs.
//
// The shelf stays where it is. Its pieces are read out of the words (`read`), a phy's record, a count or an entry of the
// list of stored peak events is put back into them (`store`), and a start writes them all (`fresh`). What words stand for
// which shelf is a definition, specs/Words.antt. No public function asks anything of its caller: any words stand for a
// shelf.

#![tactic(auto)]

pub mod fresh;
pub mod read;
pub mod store;

// How many words a piece has, and where one begins: specs/Sizes.antt.

// a monitor
const MONITOR_WORDS: usize = 3;

// a phy: its group, enabled or not and four error counts, then its four monitors, then its three broadcast counts
const PHY_ERRORS: usize = 2;

const PHY_MONITORS: usize = PHY_ERRORS + 4;

const PHY_COUNTS: usize = PHY_MONITORS + 4 * MONITOR_WORDS;

const PHY_WORDS: usize = PHY_COUNTS + 3;

// an entry of the list of stored peak events: its phy, then its monitor
const ENTRY_WORDS: usize = 1 + MONITOR_WORDS;

// the shelf: what is device wide (the phy number, the change count, Expander 3h, SES 0h, the eight bytes of the identifier),
// then 32 rows, then 24 phys, then the list of stored peak events (the last index, how many stores there were, 32 entries)
const NUMBER: usize = 0;

const CHANGES: usize = 1;

const EXPANDER3: usize = 2;

const SES0: usize = 3;

const IDENTIFIER: usize = 4;

const FIRST_ROW: usize = IDENTIFIER + 8;

const FIRST_PHY: usize = FIRST_ROW + 32;

const STORE_LAST: usize = FIRST_PHY + 24 * PHY_WORDS;

const STORE_COUNT: usize = STORE_LAST + 1;

const FIRST_ENTRY: usize = STORE_LAST + 2;

pub const WORDS: usize = FIRST_ENTRY + 32 * ENTRY_WORDS;
