// The whole server for a C firmware that keeps the shelf in its own memory, as words (crate `words`).
//
// Each function calls the server's (crate `server`) and codes the answer as C's number, by one coding (specs/Told.antt).
// C's side of the interface is firmware/kinubarsil.h. Each promise says all of what the call comes to: the number, the
// words afterwards, and the lent buffer afterwards.

#![tactic(auto)]

mod told;

ghost use Rattle.std.specs.Prelude.{◌≡◌, cond};
ghost use Rattle.model.specs.Reports.{event, link_change, reduced_functionality, ses_notice};
ghost use Rattle.model.specs.Reach.{reach_query};
ghost use Rattle.model.specs.Shelf.{start};
ghost use Rattle.model.specs.Server.{served, lent_after};
ghost use Rattle.host.specs.Told.{taken_told, event_told, answer_told, reach_told};
ghost use Rattle.words.specs.Words.{shelf_of, laid_over, started_words};

use crate::told::{answer_told, event_told, reach_told, taken_told};
use model::Notice;
use server::{event, link_change, notice, reach_query, serve, start};
use words::WORDS;

// A start: the fresh shelf is laid into the words; or it is refused, H1, H2 or H3, and they are as they were.
#[unsafe(no_mangle)]
pub extern "C" fn smp_start(
    shelf: &mut [u32; WORDS],
    number: u32,
    groups: &[u32; 24],
    table: &[u32; 32],
    identifier: &[u8; 8],
) -> u32
    ensures told { result
        ≡ taken_told (start number groups.now table.now identifier.now).taken }
    ensures kept { shelf.new
        ≡ started_words shelf.old (start number groups.now table.now identifier.now) }
{
    taken_told(start(shelf, number, *groups, *table, *identifier))
}

// One request. Tells the length of the response in the lent buffer, or H4, H5, H6 or H10.
#[unsafe(no_mangle)]
pub extern "C" fn smp_serve(
    shelf: &mut [u32; WORDS],
    source: u32,
    frame: &[u8],
    out: &mut [u8],
) -> u32
    ensures told { result
        ≡ answer_told (served (shelf_of shelf.old) source frame.now out.old).answer }
    ensures kept { shelf.new
        ≡ laid_over shelf.old (served (shelf_of shelf.old) source frame.now out.old).shelf }
    ensures left { out.new
        ≡ lent_after (shelf_of shelf.old) source frame.now out.old }
{
    answer_told(serve(shelf, source, frame, out))
}

// An event report: the phy that it names counts it, and 1 tells that its own addition to an error count was cut (#104). Or it
// is refused, and the shelf is as it was.
#[unsafe(no_mangle)]
pub extern "C" fn smp_event(shelf: &mut [u32; WORDS], phy: u32, source: u32, amount: u32) -> u32
    ensures told { result ≡ event_told (event (shelf_of shelf.old) phy source amount).answer }
    ensures kept { shelf.new
        ≡ laid_over shelf.old (event (shelf_of shelf.old) phy source amount).shelf }
{
    event_told(event(shelf, phy, source, amount))
}

// A link change on a phy, or H7.
#[unsafe(no_mangle)]
pub extern "C" fn smp_link_change(shelf: &mut [u32; WORDS], phy: u32) -> u32
    ensures told { result ≡ taken_told (link_change (shelf_of shelf.old) phy).taken }
    ensures kept { shelf.new
        ≡ laid_over shelf.old (link_change (shelf_of shelf.old) phy).shelf }
{
    taken_told(link_change(shelf, phy))
}

// A device notice: SES, or reduced functionality, which C says by a bool. It has no refusal.
#[unsafe(no_mangle)]
pub extern "C" fn smp_notice(shelf: &mut [u32; WORDS], ses: bool) -> u32
    ensures told { result ≡ 0 }
    ensures kept { shelf.new
        ≡ laid_over shelf.old
        (cond ses (ses_notice (shelf_of shelf.old)) (reduced_functionality (shelf_of shelf.old))) }
{
    notice(shelf, if ses { Notice::Ses0 } else { Notice::Expander3 });
    0
}

// The reach query: the set of phys that a source group reaches and how many they are, or H4.
#[unsafe(no_mangle)]
pub extern "C" fn smp_reach(shelf: &[u32; WORDS], source: u32) -> u32
    ensures { result ≡ reach_told (reach_query (shelf_of shelf.now) source) }
{
    reach_told(reach_query(shelf, source))
}
