// One request that was read: judged on the pieces of the shelf that may decide it, and where it is accepted answered, with its effect.
ghost use Rattle.std.specs.Prelude.{◌≤◌, length, MatchResult};
ghost use Rattle.model.specs.Server.{least_buffer};
ghost use Rattle.words.specs.Words.{shelf_of};
ghost use Rattle.server.specs.Serving.{Accepts, Declines};

use crate::effects::carry_out_write;
use crate::pieces::grounds;
use crate::responses::send;
use broadcasts::report_broadcast;
use model::{Failure, Request};
use peaks::report_phy_event_list;
use replies::fixed::{report_general, report_manufacturer, report_phy_error_log, report_phy_event};
use replies::sending::send_result;
use results::{check_configure, check_control, check_kind, check_management, check_read};
use shelf::phys::phy_number;
use words::WORDS;
use words::read::{changes, identifier, number, phy_at};
use writes::configure::configured;
use writes::control::controlled;

// The length of the response, or the failure, with which nothing is sent and the words stay. "Response 4 bytes" is that of a write.
#[tactic(auto, using(words::proofs::Laying::laid_same), unfolding(model::specs::Results::decide, model::specs::Results::result_of, model::specs::Reply::respond, model::specs::Writes::effect, model::specs::Writes::doing))]
pub(crate) fn serve_asked(
    words: &mut [u32; WORDS],
    source: u32,
    frame: &[u8],
    request: Request,
    out: &mut [u8],
) -> Result<usize, Failure>
    requires { least_buffer ≤ length out.old }
    ensures { MatchResult result
        (λ size. Accepts (shelf_of words.old) source frame.now request out.old words.old size out.new words.new)
        (λ failure. Declines (shelf_of words.old) source frame.now request out.old words.old failure out.new words.new) }
{
    // 11h and 14h differ in the report alone, 91h and 93h in what is done; one function of both would take that as a closure, with
    // clauses longer than an arm. (21h names no phy: `phy_of` says 0, and `check_management` looks at none.)
    match request {
        Request::ReportGeneral => {
            let number = phy_number(number(words)) as u8;
            let report = report_general(changes(words), number, identifier(words));
            Ok(send(&report, out))
        }
        Request::ReportManufacturer => Ok(send(&report_manufacturer(changes(words)), out)),
        Request::ReportBroadcast { kind } => {
            check_kind(kind)?;
            Ok(report_broadcast(words, source, kind, out))
        }
        Request::ReportPhyErrorLog { phy } => {
            check_read(grounds(words, source, phy))?;
            let report = report_phy_error_log(changes(words), phy, phy_at(words, phy.into()));
            Ok(send(&report, out))
        }
        Request::ReportPhyEvent { phy } => {
            check_read(grounds(words, source, phy))?;
            let report = report_phy_event(changes(words), phy, phy_at(words, phy.into()));
            Ok(send(&report, out))
        }
        Request::ReportPhyEventList { start } => {
            check_management(grounds(words, source, 0))?;
            Ok(report_phy_event_list(words, start, out))
        }
        Request::PhyControl {
            expected,
            phy,
            operation,
        } => {
            check_control(grounds(words, source, phy), expected, operation)?;
            let done = controlled(operation, phy_at(words, phy.into()));
            carry_out_write(words, phy, done);
            Ok(send_result(0x91, Ok(()), out))
        }
        Request::ConfigurePhyEvent {
            expected,
            clear,
            phy,
            number,
        } => {
            check_configure(grounds(words, source, phy), expected, frame, number)?;
            let done = configured(frame, number, clear, phy_at(words, phy.into()));
            carry_out_write(words, phy, done);
            Ok(send_result(0x93, Ok(()), out))
        }
    }
}
