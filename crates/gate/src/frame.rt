// The frame judge: one request frame alone, with no shelf.
ghost use Rattle.std.specs.Prelude.{◌≡◌};
ghost use Rattle.model.specs.Request.{cut_frame, wrong_frame, function_of, length_right, asked, judge};
ghost use Rattle.gate.specs.FrameNumber.{has_function, house_part, result_part, function_part, frame_number};
ghost use Rattle.gate.specs.Function.{function_code};

use crate::bytes::{byte_at, word_of};
use crate::function::Function;
use crate::numbers::house_number;
use model::{Failure, Fault, House, Judged, Request};

// H6: "request under 4 bytes". #103: "H6 keeps the first meaning"
#[tactic(auto, unfolding(model::specs::Request::cut_frame))]
fn cut_frame(frame: &[u8]) -> bool
    ensures { result ≡ cut_frame frame.now }
{
    frame.len() < 4
}

// #103: "H10, first byte not 40h, takes its turn directly after H6 and before any function result"
#[tactic(auto, unfolding(model::specs::Request::wrong_frame))]
fn wrong_frame(frame: &[u8]) -> bool
    ensures { result ≡ wrong_frame frame.now }
{
    byte_at(frame, 0) != 0x40
}

// Not 03h: "byte 3 or the frame's true length is not as below". A 93h has d in byte 11, 12 + 8d bytes
// and length 2 + 2d, as exact numbers. #101, 21h: "The request has 8 bytes, length 01h", "with 03h for any
// other length".
#[tactic(auto, unfolding(model::specs::Request::length_right))]
fn length_right(function: Function, frame: &[u8]) -> bool
    requires { function_code function ≡ function_of frame.now }
    ensures { result ≡ length_right frame.now }
{
    let length = byte_at(frame, 3) as usize;
    let d = byte_at(frame, 11) as usize;
    let size = frame.len();
    match function {
        // An arm to each: with the first three in one, a 04h takes 104 instructions and a 16h 102, over the 100 that docs/BENCH.md allows a
        // refusal; so they take 95 and 91.
        Function::ReportGeneral => size == 4 && length == 0x00,
        Function::ReportManufacturer => size == 4 && length == 0x00,
        Function::ReportBroadcast => size == 4 && length == 0x00,
        Function::ReportPhyErrorLog => size == 12 && (length == 0x02 || length == 0x00),
        Function::ReportPhyEvent => size == 12 && length == 0x02,
        Function::ReportPhyEventList => size == 8 && length == 0x01,
        Function::PhyControl => size == 40 && (length == 0x09 || length == 0x00),
        Function::ConfigurePhyEvent => size == 12 + 8 * d && length == 2 + 2 * d,
    }
}

// What a frame of a known function and a right length asks: the expected count is in bytes 4 and 5, and
// the phy in byte 9, of every function that has them. #101: "starting index in 6 and 7".
#[tactic(auto, unfolding(model::specs::Request::asked))]
fn asked(function: Function, frame: &[u8]) -> Request
    requires { function_code function ≡ function_of frame.now }
    ensures { result ≡ asked frame.now }
{
    let expected = word_of(byte_at(frame, 4), byte_at(frame, 5)) as u32;
    let phy = byte_at(frame, 9);
    match function {
        Function::ReportGeneral => Request::ReportGeneral,
        Function::ReportManufacturer => Request::ReportManufacturer,
        Function::ReportBroadcast => Request::ReportBroadcast {
            kind: byte_at(frame, 2),
        },
        Function::ReportPhyErrorLog => Request::ReportPhyErrorLog { phy },
        Function::ReportPhyEvent => Request::ReportPhyEvent { phy },
        Function::ReportPhyEventList => Request::ReportPhyEventList {
            start: word_of(byte_at(frame, 6), byte_at(frame, 7)),
        },
        Function::PhyControl => Request::PhyControl {
            expected,
            phy,
            operation: byte_at(frame, 10),
        },
        Function::ConfigurePhyEvent => Request::ConfigurePhyEvent {
            expected,
            clear: byte_at(frame, 6) % 2 == 1,
            phy,
            number: byte_at(frame, 11),
        },
    }
}

// Judging one request frame alone: the read request, or H6, H10, 01h or 03h.
#[tactic(auto, unfolding(model::specs::Request::judge))]
pub fn judge(frame: &[u8]) -> Judged
    ensures { result ≡ judge frame.now }
{
    if cut_frame(frame) {
        return Err(Fault::NoFrame(House::CutFrame));
    }
    if wrong_frame(frame) {
        return Err(Fault::NoFrame(House::WrongFrame));
    }
    let function = Function::try_from(byte_at(frame, 1)).map_err(Fault::Fails)?;
    if !length_right(function, frame) {
        return Err(Fault::Fails(Failure::InvalidRequestFrameLength));
    }
    Ok(asked(function, frame))
}

// The code of a judgement's failed result, or 00h where there is none.
fn result_part(judged: Judged) -> u8
    ensures { result ≡ result_part judged }
{
    match judged {
        Ok(_) => 0x00,
        Err(Fault::NoFrame(_)) => 0x00,
        Err(Fault::Fails(failure)) => failure as u8,
    }
}

// The number of a judgement's house refusal, or 0 where there is none.
fn house_part(judged: Judged) -> u8
    ensures { result ≡ house_part judged }
{
    match judged {
        Ok(_) => 0,
        Err(Fault::NoFrame(house)) => house_number(house),
        Err(Fault::Fails(_)) => 0,
    }
}

// A frame under four bytes has no function to tell.
fn has_function(frame: &[u8]) -> bool
    ensures { result ≡ has_function frame.now }
{
    4 <= frame.len()
}

// The function, or 00h where there is none.
fn function_part(frame: &[u8]) -> u8
    ensures { result ≡ function_part frame.now }
{
    if has_function(frame) {
        byte_at(frame, 1)
    } else {
        0x00
    }
}

// What the C firmware is told of a frame: the function and H6, H10, 01h, 03h or nothing wrong, as one
// number in four parts. #103: "The C firmware's frame judge tells both as well."
#[tactic(auto, unfolding(crate::specs::FrameNumber::frame_number))]
#[unsafe(no_mangle)]
pub extern "C" fn smp_judge_frame(frame: &[u8]) -> u32
    ensures { result ≡ frame_number frame.now }
{
    let judged = judge(frame);
    let house = house_part(judged);
    let code = result_part(judged);
    u32::from_be_bytes([has_function(frame) as u8, house, code, function_part(frame)])
}
