// The reports of a script: events, link changes and notices, once or many times.
ghost use Rattle.std.specs.Prelude.{◌≡◌};
ghost use Rattle.script.specs.Report.{read_times, read_event, read_link_change, read_notice, read_report};
ghost use Rattle.script.specs.Report.{make_report, make_times};

use crate::text::{Reading, read, read_whole};
use counters::report::event_answer;
use model::{Counted, EventAnswer, Notice};
use server::{event, link_change, notice};
use words::WORDS;

#[derive(Clone, Copy)]
pub enum Report {
    Event { phy: u32, source: u32, amount: u32 },
    LinkChange { phy: u32 },
    Notice(Notice),
}

// What a line of a report says: the report, and how many times it is made.
#[derive(Clone, Copy)]
pub struct ReportLine {
    pub times: u32,
    pub report: Report,
}

// Reads how many times, which may be left out, as the last number.
#[tactic(auto, unfolding(crate::specs::Report::read_times))]
fn read_times(line: &[u8], from: Reading) -> Reading
    ensures { result ≡ read_times line.now from }
{
    let once = Reading { third: 1, ..from };
    read(line, from, b"# times: ").unwrap_or(once)
}

#[tactic(auto, unfolding(crate::specs::Report::read_event))]
fn read_event(line: &[u8], start: Reading) -> Option<Report>
    ensures { result ≡ read_event line.now start }
{
    let event = read_whole(line, start, b"event on phy #, source $h, amount #")?;
    Some(Report::Event {
        phy: event.first,
        source: event.second,
        amount: event.third,
    })
}

#[tactic(auto, unfolding(crate::specs::Report::read_link_change))]
fn read_link_change(line: &[u8], start: Reading) -> Option<Report>
    ensures { result ≡ read_link_change line.now start }
{
    let link = read_whole(line, start, b"link change on phy #")?;
    Some(Report::LinkChange { phy: link.third })
}

#[tactic(auto, unfolding(crate::specs::Report::read_notice))]
fn read_notice(line: &[u8], start: Reading) -> Option<Report>
    ensures { result ≡ read_notice line.now start }
{
    if read_whole(line, start, b"notice of reduced functionality").is_some() {
        return Some(Report::Notice(Notice::Expander3));
    }
    read_whole(line, start, b"SES notice")?;
    Some(Report::Notice(Notice::Ses0))
}

// Reads a report to the end of the line: `event on phy 2, source 2Dh, amount 12`,
// `65534 times: link change on phy 0` and the like.
#[tactic(auto, unfolding(crate::specs::Report::read_report))]
pub fn read_report(line: &[u8], from: Reading) -> Option<ReportLine>
    ensures { result ≡ read_report line.now from }
{
    let start = read_times(line, from);
    let report = read_event(line, start)
        .or_else(|| read_link_change(line, start))
        .or_else(|| read_notice(line, start))?;
    Some(ReportLine {
        times: start.third,
        report,
    })
}

// Makes a report on the shelf in these words. What is told has the form of an event report's answer: a link change and a
// notice add to no error count, and so are never cut (#104). The notices have no refusal.
#[tactic(auto, unfolding(crate::specs::Report::make_report))]
fn make_report(words: &mut [u32; WORDS], report: Report) -> EventAnswer
    ensures told { result ≡ (make_report words.old report).answer }
    ensures kept { words.new ≡ (make_report words.old report).words }
{
    match report {
        Report::Event {
            phy,
            source,
            amount,
        } => event(words, phy, source, amount),
        Report::LinkChange { phy } => event_answer(link_change(words, phy), false),
        Report::Notice(which) => {
            notice(words, which);
            Ok(Counted { cut: false })
        }
    }
}

// Makes a report that many times, and tells what the last came to. 0 times come to a report that is counted and not cut,
// with the words as they were.
pub fn make_times(words: &mut [u32; WORDS], report: Report, times: u32) -> EventAnswer
    ensures told { result ≡ (make_times words.old report times).answer }
    ensures kept { words.new ≡ (make_times words.old report times).words }
{
    let mut told = Ok(Counted { cut: false });
    for _ in 0..times {
        told = make_report(words, report);
    }
    told
}
