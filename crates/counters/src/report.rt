// What an event report is judged to be, and its answer.
ghost use Rattle.std.specs.Prelude.{◌≡◌};
ghost use Rattle.model.specs.Reports.{amount_too_large, event_taken, event_answer};

use crate::sources::supported;
use model::{Counted, EventAnswer, House, Taken};

// What is reported of a phy: "An event report names phy, source and a 32-bit amount."
#[derive(Clone, Copy)]
pub struct Report {
    pub source: u32,
    pub amount: u32,
}

// H9: "amount above FFh for 2Bh, or above FFFFh for 2Ch"
#[tactic(auto, unfolding(model::specs::Reports::amount_too_large))]
fn amount_too_large(report: Report) -> bool
    ensures { result ≡ amount_too_large report.source report.amount }
{
    match report.source {
        0x2B => 0xFF < report.amount,
        0x2C => 0xFFFF < report.amount,
        _ => false,
    }
}

// On a phy that exists or does not: H7, H8, H9 or done.
#[tactic(auto, unfolding(model::specs::Reports::event_taken))]
pub fn event_taken(there: bool, report: Report) -> Taken
    ensures { result ≡ event_taken there report.source report.amount }
{
    if !there {
        return Err(House::NoSuchPhy);
    }
    if report.source == 0x00 || !supported(report.source) {
        return Err(House::EventSource);
    }
    if amount_too_large(report) {
        return Err(House::Amount);
    }
    Ok(())
}

// The answer to a report that was judged so: counted, and whether its own addition was cut (#104); a refused one has no such
// answer.
pub fn event_answer(taken: Taken, cut: bool) -> EventAnswer
    ensures { result ≡ event_answer taken cut }
{
    taken.map(|()| Counted { cut })
}
