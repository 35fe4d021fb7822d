// The server: start, requests, reports, notices and the reach query, on a shelf that its caller keeps in words of
// 32 bits (crate `words`) and lends to each call.
//
// The shelf stays where it is. Each function takes the pieces that it needs out of the words, has the other crates
// decide and count on them by value, and puts back at most one phy's record, the counts and what is stored. Data flows one way: the
// frame is judged (crate `gate`), the judged request is decided from pieces of the shelf (crate `results`), and where it is accepted it
// is answered and has its effect (`serving`).
//
// Each promise says all of what the call comes to, by the model's definitions of the shelf that the words stand for: the
// answer, the words afterwards and, for `serve`, the lent buffer afterwards. None asks anything of its caller.

#![tactic(auto)]

mod effects;
mod pieces;
mod reach;
mod responses;
mod serving;

ghost use Rattle.std.specs.Prelude.{◌≡◌};
ghost use Rattle.model.specs.Reports.{event, link_change, noticed};
ghost use Rattle.model.specs.Reach.{reach_query};
ghost use Rattle.model.specs.Server.{served, lent_after};
ghost use Rattle.model.specs.Shelf.{start};
ghost use Rattle.words.specs.Words.{shelf_of, laid_over, started_words};

use crate::effects::carry_out;
use crate::pieces::there;
use crate::reach::reach_set;
use crate::responses::turned_away;
use crate::serving::serve_asked;
use counters::counts::originate;
use counters::phy::{change_on, event_on};
use counters::report::{Report, event_answer, event_taken};
use gate::bytes::byte_at;
use gate::frame::judge;
use model::{Answer, EventAnswer, House, LEAST_BUFFER, Notice, Reach, Reached, Taken};
use replies::sending::send_result;
use shelf::start::start_taken;
use words::WORDS;
use words::fresh::lay_fresh;
use words::read::{expander3, phy_at, ses0};
use words::store::put_device;

// A start: the words of the fresh shelf are written; or it is refused, H1, H2 or H3, and they are as they were. (No struct of the four:
// it would be made in `host`, of what C hands over one by one, and taken apart here.)
#[tactic(auto, unfolding(model::specs::Shelf::start))]
pub fn start(
    words: &mut [u32; WORDS],
    number: u32,
    groups: [u32; 24],
    table: [u32; 32],
    identifier: [u8; 8],
) -> Taken
    ensures told { result ≡ (start number groups table identifier).taken }
    ensures kept { words.new ≡ started_words words.old (start number groups table identifier) }
{
    start_taken(number, groups, table)?;
    lay_fresh(words, number, groups, table, identifier);
    Ok(())
}

// One request: source group, request frame and lent buffer. The answer is the length of the response in the buffer, or
// H4, H5, H6, H10, in this order. (A length and no slice: the buffer is C's, who asks how many bytes stand in it.)
#[tactic(auto, using(words::proofs::Laying::laid_same), unfolding(model::specs::Server::served, model::specs::Server::lent_after, model::specs::Server::handle))]
pub fn serve(words: &mut [u32; WORDS], source: u32, frame: &[u8], out: &mut [u8]) -> Answer
    ensures told { result ≡ (served (shelf_of words.old) source frame.now out.old).answer }
    ensures kept { words.new
        ≡ laid_over words.old (served (shelf_of words.old) source frame.now out.old).shelf }
    ensures left { out.new
        ≡ lent_after (shelf_of words.old) source frame.now out.old }
{
    if 31 < source {
        return Err(House::SourceGroup);
    }
    if out.len() < LEAST_BUFFER {
        return Err(House::ShortBuffer);
    }
    let judged = judge(frame);
    let Ok(request) = judged else {
        return turned_away(judged, byte_at(frame, 1), out);
    };
    match serve_asked(words, source, frame, request, out) {
        Ok(size) => Ok(size),
        Err(failure) => Ok(send_result(byte_at(frame, 1), Err(failure), out)),
    }
}

// An event report: the phy that it names counts it, and each monitor that crossed is stored; the answer says whether its own
// addition to an error count was cut (#104). Or it is refused, and the shelf is as it was. (C hands phy, source and amount over one by
// one.)
#[tactic(auto, using(words::proofs::Laying::laid_same), unfolding(model::specs::Reports::event))]
pub fn event(words: &mut [u32; WORDS], phy: u32, source: u32, amount: u32) -> EventAnswer
    ensures told { result ≡ (event (shelf_of words.old) phy source amount).answer }
    ensures kept { words.new
        ≡ laid_over words.old (event (shelf_of words.old) phy source amount).shelf }
{
    let report = Report { source, amount };
    let taken = event_taken(there(words, phy), report);
    let Ok(()) = taken else {
        return event_answer(taken, false);
    };
    let counted = event_on(report, phy_at(words, phy));
    carry_out(words, phy as u8, counted.effect);
    event_answer(taken, counted.cut)
}

// A link change on a phy, enabled or not: it originates Change, and the change count moves. Or H7.
#[tactic(auto, using(words::proofs::Laying::laid_same), unfolding(model::specs::Reports::link_change))]
pub fn link_change(words: &mut [u32; WORDS], phy: u32) -> Taken
    ensures told { result ≡ (link_change (shelf_of words.old) phy).taken }
    ensures kept { words.new
        ≡ laid_over words.old (link_change (shelf_of words.old) phy).shelf }
{
    if !there(words, phy) {
        return Err(House::NoSuchPhy);
    }
    let before = phy_at(words, phy);
    carry_out(words, phy as u8, change_on(before.enabled, before));
    Ok(())
}

// A device notice: reduced functionality, or SES. It has no refusal.
#[tactic(auto, unfolding(model::specs::Reports::reduced_functionality, model::specs::Reports::ses_notice))]
pub fn notice(words: &mut [u32; WORDS], notice: Notice)
    ensures { words.new
        ≡ laid_over words.old (noticed (shelf_of words.old) notice) }
{
    let expander3 = expander3(words);
    let ses0 = ses0(words);
    match notice {
        Notice::Expander3 => put_device(words, originate(expander3), ses0),
        Notice::Ses0 => put_device(words, expander3, originate(ses0)),
    }
}

// The reach query: the set of phys that a source group reaches and how many they are, which is the count of ones of the
// set. Or H4.
pub fn reach_query(words: &[u32; WORDS], source: u32) -> Reach
    ensures { result ≡ reach_query (shelf_of words.now) source }
{
    if source <= 31 {
        let phys = reach_set(words, source);
        let number = phys.count_ones();
        Ok(Reached { phys, number })
    } else {
        Err(House::SourceGroup)
    }
}
