// What an accepted 93h does to its phy: "Descriptor i sets monitor i .. Then, if clearing, each of the
// phy's monitors on a peak source goes to 0".
ghost use Rattle.std.specs.Prelude.{◌≡◌, cond, map, ltb};
ghost use Rattle.model.specs.Counting.{quiet, marked, originate_if};
ghost use Rattle.model.specs.Sources.{peak};
ghost use Rattle.model.specs.Writes.{set_monitor, set_monitors, set_on};
ghost use Rattle.model.specs.Writes.{clear_monitor, any_peak, peaks, clear_on, configured};

use crate::descriptors::{descriptor_source, descriptor_threshold};
use crate::effects::quiet;
use counters::counts::originate;
use counters::sources::peak;
use model::{Effect, Monitor, Phy};

// Monitor i as descriptor i sets it: "a changed source sets the value to 0, the same source keeps it"
#[tactic(auto, unfolding(model::specs::Writes::set_monitor))]
fn set_monitor(frame: &[u8], i: u8, before: Monitor) -> Monitor
    ensures { result ≡ set_monitor frame.now i before }
{
    let source = descriptor_source(frame, i);
    let value = if before.source == source {
        before.value
    } else {
        0
    };
    Monitor {
        source,
        value,
        threshold: descriptor_threshold(frame, i),
    }
}

// "Descriptor i sets monitor i": where there is a descriptor i, and else the monitor stays
fn set_if_described(frame: &[u8], d: u8, i: u8, before: Monitor) -> Monitor
    ensures { result ≡ cond (ltb i d) (set_monitor frame.now i before) before }
{
    if i < d {
        set_monitor(frame, i, before)
    } else {
        before
    }
}

// The four monitors, of which those below d have a descriptor.
#[tactic(auto, unfolding(model::specs::Writes::set_monitors))]
fn set_monitors(frame: &[u8], d: u8, before: [Monitor; 4]) -> [Monitor; 4]
    ensures { result ≡ set_monitors frame.now d 0 before }
{
    std::array::from_fn(|i| set_if_described(frame, d, i as u8, before[i]))
}

// The phy once its monitors are set.
#[tactic(auto, unfolding(model::specs::Writes::set_on))]
fn set_on(frame: &[u8], d: u8, before: Phy) -> Phy
    ensures { result ≡ set_on frame.now d before }
{
    Phy {
        monitors: set_monitors(frame, d, before.monitors),
        ..before
    }
}

// a monitor on a peak source
fn on_peak(monitor: Monitor) -> bool
    ensures { result ≡ peak monitor.source }
{
    peak(u32::from(monitor.source))
}

// "each of the phy's monitors on a peak source goes to 0": one of them
#[tactic(auto, unfolding(model::specs::Writes::clear_monitor))]
fn clear_monitor(before: Monitor) -> Monitor
    ensures { result ≡ clear_monitor before }
{
    if !on_peak(before) {
        return before;
    }
    Monitor { value: 0, ..before }
}

// .. and all four
fn clear_monitors(before: [Monitor; 4]) -> [Monitor; 4]
    ensures { result ≡ map clear_monitor before }
{
    before.map(clear_monitor)
}

// "if there is one such monitor or more"
#[tactic(auto, unfolding(model::specs::Writes::any_peak))]
fn any_peak(monitors: [Monitor; 4]) -> bool
    ensures { result ≡ any_peak monitors }
{
    monitors.iter().any(|monitor| on_peak(*monitor))
}

// .. then Expander 2h "is originated once". (An `if` of one count, as in `changes_after` of `server`: a function of both would be public, to
// name two words.)
fn originate_cleared(monitors: [Monitor; 4], count: u16) -> u16
    ensures { result ≡ originate_if (any_peak monitors) count }
{
    if any_peak(monitors) {
        originate(count)
    } else {
        count
    }
}

// #101: "every peak monitor of the phy", "in monitor order"
fn peaks(monitors: [Monitor; 4]) -> [Option<Monitor>; 4]
    ensures { result ≡ marked (peaks monitors) monitors }
{
    monitors.map(|monitor| on_peak(monitor).then_some(monitor))
}

// "Then, if clearing": the phy once its peaks are cleared. "Expander 2h is originated once" where it has
// one. #101: "each Expander 2h stores every peak monitor of the phy with its value before the clear".
#[tactic(auto, unfolding(model::specs::Writes::clear_on))]
fn clear_on(before: Phy) -> Effect
    ensures { result ≡ clear_on before }
{
    let stored = peaks(before.monitors);
    let monitors = clear_monitors(before.monitors);
    let expander2 = originate_cleared(before.monitors, before.expander2);
    Effect {
        phy: Phy {
            monitors,
            expander2,
            ..before
        },
        change: false,
        stored,
    }
}

// The phy after a 93h with d descriptors: set, and then cleared if clearing.
#[tactic(auto, unfolding(model::specs::Writes::configured))]
pub fn configured(frame: &[u8], d: u8, clear: bool, before: Phy) -> Effect
    ensures { result ≡ configured frame.now d clear before }
{
    let set = set_on(frame, d, before);
    if clear { clear_on(set) } else { quiet(set) }
}
