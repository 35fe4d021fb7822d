// The responses of a fixed size, and the descriptors of the lists.
ghost use Rattle.std.specs.Prelude.{◌≡◌};
ghost use Rattle.model.specs.Reply.{failed, report_general, report_manufacturer, report_phy_error_log};
ghost use Rattle.model.specs.Reply.{event_descriptor, report_phy_event, broadcast_descriptor, entry_descriptor};

use crate::lay::{head, lay};
use crate::wire::two;
use model::{Entry, Monitor, Phy};

// "A failed response is 41h, the function, the result, 00h." With result 00h it is a write's response.
pub fn failed(function: u8, res: u8) -> [u8; 4]
    ensures { result ≡ failed function res }
{
    [0x41, function, res, 0x00]
}

// 00h: "Response 36 bytes, length 08h: 9 number of phys, 12 to 19 identifier."
#[tactic(auto, unfolding(model::specs::Reply::report_general))]
pub fn report_general(changes: u16, number: u8, identifier: [u8; 8]) -> [u8; 36]
    ensures { result ≡ report_general changes number identifier }
{
    let mut frame = [0u8; 36];
    head(&mut frame, 0x00, 0x08, changes);
    lay(&mut frame, 9, &[number]);
    lay(&mut frame, 12, &identifier);
    frame
}

// 01h: "Response 60 bytes, length 0Eh: 12 to 19 the fixed text `RAILYARD`, 20 to 35 `PORTAL SHELF` and
// four spaces, 36 to 39 `0001`."
#[tactic(auto, unfolding(model::specs::Reply::report_manufacturer))]
pub fn report_manufacturer(changes: u16) -> [u8; 60]
    ensures { result ≡ report_manufacturer changes }
{
    let mut frame = [0u8; 60];
    head(&mut frame, 0x01, 0x0E, changes);
    lay(&mut frame, 12, b"RAILYARD");
    lay(&mut frame, 20, b"PORTAL SHELF    ");
    lay(&mut frame, 36, b"0001");
    frame
}

// 11h: "Response 28 bytes, length 06h: 9 phy, then invalid dwords at 12, disparity errors at 16, lost
// synchronization at 20, reset problems at 24."
#[tactic(auto, unfolding(model::specs::Reply::report_phy_error_log))]
pub fn report_phy_error_log(changes: u16, phy: u8, numbers: Phy) -> [u8; 28]
    ensures { result ≡ report_phy_error_log changes phy numbers }
{
    let errors = numbers.errors.map(u32::to_be_bytes);
    let mut frame = [0u8; 28];
    head(&mut frame, 0x11, 0x06, changes);
    lay(&mut frame, 9, &[phy]);
    lay(&mut frame, 12, errors.as_flattened());
    frame
}

// A descriptor of 14h: "12 bytes: 3 source, 4 to 7 value, 8 to 11 threshold."
fn event_descriptor(monitor: Monitor) -> [u8; 12]
    ensures { result ≡ event_descriptor monitor }
{
    let mut descriptor = [0u8; 12];
    lay(&mut descriptor, 3, &[monitor.source]);
    lay(&mut descriptor, 4, &monitor.value.to_be_bytes());
    lay(&mut descriptor, 8, &monitor.threshold.to_be_bytes());
    descriptor
}

// 14h: "Response 64 bytes, length 0Fh: 9 phy, 15 the number 4, then from 16 four descriptors of 12 bytes"
#[tactic(auto, unfolding(model::specs::Reply::report_phy_event))]
pub fn report_phy_event(changes: u16, phy: u8, numbers: Phy) -> [u8; 64]
    ensures { result ≡ report_phy_event changes phy numbers }
{
    let descriptors = numbers.monitors.map(event_descriptor);
    let mut frame = [0u8; 64];
    head(&mut frame, 0x14, 0x0F, changes);
    lay(&mut frame, 9, &[phy]);
    lay(&mut frame, 15, &[4]);
    lay(&mut frame, 16, descriptors.as_flattened());
    frame
}

// A descriptor of 06h: "0 phy, 2 reason, 4 and 5 count."
pub fn broadcast_descriptor(phy: u8, reason: u8, count: u16) -> [u8; 8]
    ensures { result ≡ broadcast_descriptor (record { phy = phy; reason = reason; count = count }) }
{
    let mut descriptor = [0u8; 8];
    lay(&mut descriptor, 0, &[phy]);
    lay(&mut descriptor, 2, &[reason]);
    lay(&mut descriptor, 4, &two(count));
    descriptor
}

// A descriptor of 21h, #101: "12 bytes as in 14h with the phy at byte 2"
pub fn entry_descriptor(e: Entry) -> [u8; 12]
    ensures { result ≡ entry_descriptor e }
{
    let mut descriptor = event_descriptor(e.monitor);
    lay(&mut descriptor, 2, &[e.phy]);
    descriptor
}
