// 06h: "Every non-zero count of that type that the source may see is listed: FFh first, then phys
// rising, then reason rising." The list is written into the lent buffer as it is walked: a phy is read from the
// shelf's words where it stands, as the list comes to it.
//
// `report_broadcast` asks nothing of its caller. What it rests on is private: it has the front of the buffer, where there is
// room for any response, and asks for no more descriptors than there can be, which are 49: one under FFh and two for each of
// 24 phys. (`kind` is the broadcast type; `type` is a word of the language. It stays a number: every byte is answered, and told
// again; and so does a reason, which is what a byte of the response says.)

#![tactic(auto)]

ghost use Rattle.std.specs.Prelude.{◌≡◌, ◌≤◌};
ghost use Rattle.model.specs.Reply.{listed, device_listed, phy_listed, seen_listed, broadcasts, broadcast_head, report_broadcast};
ghost use Rattle.words.specs.Words.{shelf_of};
ghost use Rattle.broadcasts.specs.Listed.{broadcast_list};
ghost use Rattle.replies.specs.Listed.{Lists};
ghost use Rattle.replies.specs.Sent.{Sent};

use gate::zone::smp_row_reaches;
use model::{LEAST_BUFFER, Phy};
use replies::fixed::broadcast_descriptor;
use replies::wire::two;
use shelf::phys::phy_number;
use words::WORDS;
use words::read::{changes, expander3, number, phy_at, row, ses0};

// The list as it is written: the buffer, and how many descriptors there are.
// (No bound stands in the type: that `number` is at most 49 would not say that there is room for one more. `kind` and `row` go beside it:
// in the type they would stand in `Grows`, which says nothing of them.)
#[derive(Drop)]
struct List<'a> {
    out: &'a mut [u8; LEAST_BUFFER],
    number: u8,
}

impl<'a> List<'a> {
    ghost use Rattle.broadcasts.specs.Grows.{Grows};

    // One count of the list, unless it is 0: "Every non-zero count".
    #[tactic(auto, using(crate::proofs::Walk::grows_none))]
    fn push(&mut self, phy: u8, reason: u8, count: u16)
        requires { self.old.number ≤ 48 }
        ensures { Grows self.old (listed phy reason count) self.new }
    {
        if count == 0 {
            return;
        }
        let at = 8 + 8 * (self.number as usize);
        // the whole buffer first: of what lies behind a field's reference no part is taken
        let out = &mut *self.out;
        out[at..at + 8].copy_from_slice(&broadcast_descriptor(phy, reason, count));
        self.number += 1;
    }

    // The count under FFh: "two broadcast counts under FFh: Expander 3h (reduced functionality) and SES 0h".
    #[tactic(auto, unfolding(model::specs::Reply::device_listed))]
    fn push_device(&mut self, kind: u8, expander3: u16, ses0: u16)
        requires { self.old.number ≤ 48 }
        ensures { Grows self.old (device_listed kind expander3 ses0) self.new }
    {
        match kind {
            0x3 => self.push(0xFF, 0x0, ses0),
            0x4 => self.push(0xFF, 0x3, expander3),
            _ => {}
        }
    }

    // The counts of one phy: "Change reason 0h, Expander 1h and 2h".
    #[tactic(auto, using(crate::proofs::Walk::grows_none), unfolding(model::specs::Reply::phy_listed))]
    fn push_phy(&mut self, kind: u8, phy: u8, numbers: Phy)
        requires { self.old.number ≤ 47 }
        ensures { Grows self.old (phy_listed kind phy numbers) self.new }
    {
        match kind {
            0x0 => self.push(phy, 0x0, numbers.change0),
            0x4 => {
                self.push(phy, 0x1, numbers.expander1);
                self.push(phy, 0x2, numbers.expander2);
            }
            _ => {}
        }
    }

    // .. if the source sees the phy: "A source sees FFh and the phys it reaches."
    #[tactic(auto, using(crate::proofs::Walk::grows_none))]
    fn push_seen(&mut self, row: u32, kind: u8, phy: u8, numbers: Phy)
        requires { self.old.number ≤ 47 }
        ensures { Grows self.old (seen_listed row kind phy numbers) self.new }
    {
        if smp_row_reaches(row, numbers.group) {
            self.push_phy(kind, phy, numbers);
        }
    }

    // The whole list: "FFh first, then phys rising, then reason rising."
    fn push_all(&mut self, words: &[u32; WORDS], source: u32, kind: u8)
        requires { self.old.number ≡ 0 }
        ensures { Grows self.old (broadcasts (shelf_of words.now) source kind) self.new }
    {
        let row = row(words, source);
        let number = phy_number(number(words));
        self.push_device(kind, expander3(words), ses0(words));
        // the phy's number itself is listed: it is no index
        for p in 0..number {
            self.push_seen(row, kind, p as u8, phy_at(words, p));
        }
    }
}

// "Response: 6 type, 7 number n, .. length 1 + 2n": the 8 bytes before the list.
fn broadcast_head(changes: u16, kind: u8, n: u8) -> [u8; 8]
    requires { n ≤ 49 }
    ensures { result ≡ broadcast_head changes kind n }
{
    let [high, low] = two(changes);
    [0x41, 0x06, 0x00, 1 + 2 * n, high, low, kind, n]
}

// The response to 06h, where there is room for it. Gives its length.
fn send(words: &[u32; WORDS], source: u32, kind: u8, out: &mut [u8; LEAST_BUFFER]) -> usize
    ensures { Sent out.old (report_broadcast (shelf_of words.now) source kind) result out.new }
{
    let mut list = List { out, number: 0 };
    list.push_all(words, source, kind);
    let n = list.number;
    out[..8].copy_from_slice(&broadcast_head(changes(words), kind, n));
    8 + 8 * (n as usize)
}

// The response to 06h, in the lent buffer. Gives its length. Into a buffer that is too short nothing is sent.
pub fn report_broadcast(words: &[u32; WORDS], source: u32, kind: u8, out: &mut [u8]) -> usize
    ensures { Sent out.old (report_broadcast (shelf_of words.now) source kind) result out.new }
{
    // 0 bytes and not an `Option` where nothing is sent: `Sent` promises the length of what was sent
    match out.first_chunk_mut() {
        Some(front) => send(words, source, kind, front),
        None => 0,
    }
}
