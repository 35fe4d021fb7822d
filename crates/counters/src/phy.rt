// What an event report, and originating Change, do to the numbers of one phy.
ghost use Rattle.std.specs.Prelude.{◌≡◌, cond, length, map, max, Some, None};
ghost use Rattle.model.specs.Counting.{originate_times, add_wrapping, counted, crosses, crossings, marked, stored_ones};
ghost use Rattle.model.specs.Counting.{add_error, error_cut, event_on, change_on};
ghost use Rattle.model.specs.Sources.{peak};

use crate::counts::{add_saturating, add_wrapping, originate};
use crate::report::Report;
use crate::sources::peak;
use model::{Added, Effect, Monitor, Phy};

// "counting values wrap at 32 bits, peaks keep the larger"
fn value_after(report: Report, value: u32) -> u32
    ensures { result ≡ cond (peak report.source) (max value report.amount) (add_wrapping value report.amount) }
{
    if peak(report.source) {
        value.max(report.amount)
    } else {
        add_wrapping(value, report.amount)
    }
}

// "Each of the phy's monitors on that source changes"
#[tactic(auto, unfolding(model::specs::Counting::counted))]
fn counted(report: Report, before: Monitor) -> Monitor
    ensures { result ≡ counted report.source report.amount before }
{
    if u32::from(before.source) != report.source {
        return before;
    }
    Monitor {
        value: value_after(report, before.value),
        ..before
    }
}

// .. and all four
fn all_counted(report: Report, before: [Monitor; 4]) -> [Monitor; 4]
    ensures { result ≡ map (counted report.source report.amount) before }
{
    before.map(|monitor| counted(report, monitor))
}

// "A peak that a report takes from below its threshold to it or above"
#[tactic(auto, unfolding(model::specs::Counting::crosses))]
fn crosses(before: Monitor, after: u32) -> bool
    ensures { result ≡ crosses before after }
{
    peak(u32::from(before.source)) && before.value < before.threshold && before.threshold <= after
}

// A monitor that a report takes there, as the report leaves it.
fn crossed(report: Report, before: Monitor) -> Option<Monitor>
    ensures { let after = counted report.source report.amount before in result ≡ cond (crosses before after.value) (Some after) None }
{
    let after = counted(report, before);
    crosses(before, after.value).then_some(after)
}

// .. and which of the four are. A report on a counting source changes no peak, and so takes none anywhere.
#[tactic(auto, using(crate::proofs::Crossings::none_left))]
fn all_crossed(report: Report, monitors: [Monitor; 4]) -> [Option<Monitor>; 4]
    ensures { result ≡ marked (crossings report.source report.amount monitors) (map (counted report.source report.amount) monitors) }
{
    if !peak(report.source) {
        return [None; 4];
    }
    monitors.map(|monitor| crossed(report, monitor))
}

// ".. originates Expander 1h, once per monitor": the count afterwards
// (The fold asks each place itself: with `flatten` or `filter` before it the proof did not close.)
fn originate_each(crossed: [Option<Monitor>; 4], count: u16) -> u16
    ensures { result ≡ originate_times (length (stored_ones crossed)) count }
{
    crossed.iter().fold(
        count,
        |so_far, monitor| if monitor.is_some() {
            originate(so_far)
        } else {
            so_far
        },
    )
}

// The four error counts after a report, and whether its own addition to one of them was cut (#104).
// (A flag beside the counts, and no Option: where the addition was cut there are counts too.)
#[derive(Clone, Copy)]
struct ErrorsAdded {
    errors: [u32; 4],
    cut: bool,
}

// "Sources 01h to 04h also add to the four error counts in the order above". #104: ".. and with "no" for sources that have
// no error count".
#[tactic(auto, unfolding(model::specs::Counting::add_error, model::specs::Counting::error_cut))]
fn add_error(report: Report, mut errors: [u32; 4]) -> ErrorsAdded
    ensures added { result.errors ≡ add_error report.source report.amount errors }
    ensures cut { result.cut ≡ error_cut report.source report.amount errors }
{
    if !matches!(report.source, 0x01..=0x04) {
        return ErrorsAdded { errors, cut: false };
    }
    let i = (report.source - 1) as usize;
    let Added { number, cut } = add_saturating(errors[i], report.amount);
    errors[i] = number;
    ErrorsAdded { errors, cut }
}

// What an event report does to its phy, and whether its own addition to an error count was cut (#104).
// (A flag beside the effect, and no Option: where the addition was cut there is an effect too.)
#[derive(Clone, Copy)]
pub struct EventDone {
    pub effect: Effect,
    pub cut: bool,
}

// An event report, on the phy that it names. #101: "Each origination of Expander 1h stores the monitor that crossed, in
// monitor order if several do, with its new value".
#[tactic(auto, using(model::proofs::Plain::Counting::stored_marked), unfolding(model::specs::Counting::event_on))]
pub fn event_on(report: Report, before: Phy) -> EventDone
    ensures done { result.effect ≡ event_on report.source report.amount before }
    ensures cut { result.cut ≡ error_cut report.source report.amount before.errors }
{
    let ErrorsAdded { errors, cut } = add_error(report, before.errors);
    let stored = all_crossed(report, before.monitors);
    let phy = Phy {
        errors,
        monitors: all_counted(report, before.monitors),
        expander1: originate_each(stored, before.expander1),
        ..before
    };
    EventDone {
        effect: Effect {
            phy,
            change: false,
            stored,
        },
        cut,
    }
}

// A phy that originates Change, left enabled or not. It stores nothing.
#[tactic(auto, unfolding(model::specs::Counting::change_on))]
pub fn change_on(enabled: bool, before: Phy) -> Effect
    ensures { result ≡ change_on enabled before }
{
    Effect {
        phy: Phy {
            enabled,
            change0: originate(before.change0),
            ..before
        },
        change: true,
        stored: [None; 4],
    }
}
