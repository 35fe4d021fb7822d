// 21h, #101: the list of stored peak events, "oldest first". How many entries a start is given is worked out by
// numbers; they are then written into the lent buffer as they are read from the shelf's words, each where it stands.
//
// `report_phy_event_list` asks nothing of its caller. The functions that it rests on are private: they have the front of the
// buffer, where there is room for any response, and ask for no more descriptors than there can be, which are 32: a bound of two functions,
// and no type's.

#![tactic(auto)]

ghost use Rattle.std.specs.Prelude.{◌≡◌, ◌∷◌, [], ◌+◌, ◌-◌, ◌%◌, ◌≤◌, ◌<◌, length, drop};
ghost use Rattle.model.specs.Reply.{event_list_head, report_phy_event_list};
ghost use Rattle.model.specs.Store.{kept, entries, returned};
ghost use Rattle.model.proofs.Plain.EventList.{first_of};
ghost use Rattle.model.proofs.Plain.Store.{far};
ghost use Rattle.replies.specs.Listed.{Lists};
ghost use Rattle.replies.specs.Sent.{Sent};
ghost use Rattle.words.specs.Words.{shelf_of};
ghost use Rattle.peaks.specs.Listed.{entry_list};

use model::{Entry, LEAST_BUFFER};
use replies::fixed::entry_descriptor;
use replies::wire::two;
use words::WORDS;
use words::read::{changes, count, entry_at, last};

// How many entries are kept: none where no index was stored (0000h, which is what the response says, and so no `Option`), and 32 at most.
fn kept(words: &[u32; WORDS]) -> u16
    ensures { result ≡ kept (shelf_of words.now).store }
{
    if last(words) == 0x0000 {
        return 0;
    }
    count(words).min(32) as u16
}

// How far before the last index a start is: "Indexes run from 0001h and go from FFFFh to 0001h."
fn far(last: u16, start: u16) -> u16
    ensures { result ≡ far last start }
{
    if start <= last {
        last - start
    } else {
        last + (0xFFFF - start)
    }
}

// How many entries a start is given: "A start of 0000h .. none"; one that is stored, those from it to the newest; one that
// is not, all.
fn number_returned(words: &[u32; WORDS], start: u16) -> u16
    ensures { result ≡ length (returned (shelf_of words.now).store start) }
{
    if start == 0x0000 {
        return 0;
    }
    let kept = kept(words);
    let before = far(last(words), start);
    // `min` would say the same, and not which of the two starts it is
    if before < kept { before + 1 } else { kept }
}

// The index of the first of the last n entries, and 0000h where there is none: no `Option`, since 0000h is what the response says.
fn first_index(last: u16, n: u16) -> u16
    requires { n ≤ 32 }
    ensures { result ≡ first_of last n }
{
    if n == 0 {
        return 0x0000;
    }
    let before = n - 1;
    if before < last {
        last - before
    } else {
        last + (0xFFFF - before)
    }
}

// One entry of the list, as descriptor n. (A broadcast's `push` copies one of 8 bytes in the same way: what both promise is one definition,
// `Lists` over a layout, and a function of the layout would be no shorter than these two lines.)
fn list(out: &mut [u8; LEAST_BUFFER], n: usize, e: Entry)
    requires { n ≤ 31 }
    ensures { Lists entry_list out.old n (e ∷ []) (n + 1) out.new }
{
    let at = 12 + 12 * n;
    out[at..at + 12].copy_from_slice(&entry_descriptor(e));
}

// The last n entries: "The list runs in stored order to the newest." The entries stand in a row that goes round, and end before
// the place of the next store.
fn list_last(words: &[u32; WORDS], n: u16, out: &mut [u8; LEAST_BUFFER])
    requires { n ≤ kept (shelf_of words.now).store }
    ensures { Lists entry_list out.old 0 (drop (kept (shelf_of words.now).store - n) (entries (shelf_of words.now).store))
        n out.new }
{
    let end = count(words) % 32 + 32;
    for (i, place) in (end - n as u32..end).enumerate() {
        list(out, i, entry_at(words, place % 32));
    }
}

// ".. 4 and 5 the change count, 6 and 7 the first index returned, 8 and 9 the last index stored (0000h if none), 10 the
// number 3, 11 the number of descriptors": the 12 bytes before the list.
fn event_list_head(changes: u16, first: u16, last: u16, n: u8) -> [u8; 12]
    requires { n ≤ 32 }
    ensures { result ≡ event_list_head changes first last n }
{
    let [changes_high, changes_low] = two(changes);
    let [first_high, first_low] = two(first);
    let [last_high, last_low] = two(last);
    [
        0x41,
        0x21,
        0x00,
        2 + 3 * n,
        changes_high,
        changes_low,
        first_high,
        first_low,
        last_high,
        last_low,
        3,
        n,
    ]
}

// The response to 21h, where there is room for it. Gives its length.
#[tactic(auto, using(model::proofs::Plain::EventList::returned_few))]
fn send(words: &[u32; WORDS], start: u16, out: &mut [u8; LEAST_BUFFER]) -> usize
    ensures { Sent out.old
        (report_phy_event_list (shelf_of words.now).changes (shelf_of words.now).store start)
        result out.new }
{
    let n = number_returned(words, start);
    list_last(words, n, out);
    let last = last(words);
    let first = first_index(last, n);
    out[..12].copy_from_slice(&event_list_head(changes(words), first, last, n as u8));
    12 + 12 * (n as usize)
}

// The response to 21h, in the lent buffer. Gives its length. Into a buffer that is too short nothing is sent.
pub fn report_phy_event_list(words: &[u32; WORDS], start: u16, out: &mut [u8]) -> usize
    ensures { Sent out.old
        (report_phy_event_list (shelf_of words.now).changes (shelf_of words.now).store start)
        result out.new }
{
    // 0 bytes and not an `Option` where nothing is sent: `Sent` promises the length of what was sent. (`report_broadcast` ends alike;
    // one function of both would take `send` as a closure, with its clauses.)
    match out.first_chunk_mut() {
        Some(front) => send(words, start, front),
        None => 0,
    }
}
