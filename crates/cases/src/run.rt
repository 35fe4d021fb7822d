// Running a line of the script.
use crate::request::run_request;
use crate::told::{Told, print_told};
use model::{Counted, Reached};
use script::line::{Line, line_kind};
use script::report::{make_times, read_report};
use script::shelf_w::shelf_w;
use script::text::{Reading, read, read_whole, unread};
use server::reach_query;
use std::io;
use words::WORDS;

// `event on phy 2, source 2Dh, amount 12`, `65534 times: link change on phy 0` and the like. (A match here, in `run_reach` and in
// `run_request`, and no `From` of each answer: it would be the same two arms elsewhere.)
fn run_report(words: &mut [u32; WORDS], line: &[u8], from: Reading) -> Option<Told<'static>> {
    let said = read_report(line, from)?;
    match make_times(words, said.report, said.times) {
        Ok(Counted { cut }) => Some(Told::Done { cut }),
        Err(house) => Some(Told::Refused(house)),
    }
}

// `reach of 8`
fn run_reach(words: &[u32; WORDS], line: &[u8], from: Reading) -> Option<Told<'static>> {
    let group = read_whole(line, from, b"reach of #")?;
    match reach_query(words, group.third) {
        Ok(Reached { phys, number }) => Some(Told::Reached { phys, number }),
        Err(house) => Some(Told::Refused(house)),
    }
}

// Runs an operation, which stands after two spaces, if it can be read.
fn run_operation<'a>(
    words: &mut [u32; WORDS],
    kind: Line,
    line: &[u8],
    buffer: &'a mut [u8],
) -> Option<Told<'a>> {
    let from = read(line, unread(), b"  ").ok()?;
    match kind {
        Line::Request => run_request(words, line, from, buffer),
        Line::Reach => run_reach(words, line, from),
        _ => run_report(words, line, from),
    }
}

// Runs one line on the shelf in these words, and writes it with what it came to. A heading starts shelf W afresh.
pub(crate) fn run_line(
    rt: &impl Print,
    words: &mut [u32; WORDS],
    line: &[u8],
    buffer: &mut [u8; 2048],
    text: &mut [u8; 4096],
) -> io::Result<()> {
    rt.write_all(line)?;
    match line_kind(line) {
        Line::Heading => {
            shelf_w(words);
            rt.write_all(b"\n")
        }
        Line::Idle => rt.write_all(b"\n"),
        kind => {
            rt.write_all(b" ->")?;
            match run_operation(words, kind, line, buffer) {
                Some(told) => print_told(rt, told, text),
                None => rt.write_all(b" ?\n"),
            }
        }
    }
}
