// Document 01's cases and a day of the contractors, run on shelf W through the very server.
//
// The script comes from standard input, and each of its lines is written out with what it came to.
// The stored output was worked out from document 01 (docs/CASES.md), not taken from a run.

#![tactic(auto)]

mod request;
mod run;
mod told;

use run::run_line;
use script::shelf_w::shelf_w;
use std::io;
use std::io::Read;
use words::WORDS;

// Runs a script line by line. A line ends at a newline or at the end of the script, and the shelf
// goes on from line to line. So do the buffer that is lent to requests and the text of their responses, which are
// made once.
fn run_script(rt: &impl Print, script: &[u8]) -> io::Result<()> {
    let mut words = [0u32; WORDS];
    let mut buffer = [0u8; 2048];
    let mut text = [0u8; 4096];
    shelf_w(&mut words);
    for line in script.split_inclusive(|&byte| byte == b'\n') {
        let line = line.strip_suffix(b"\n").unwrap_or(line);
        run_line(rt, &mut words, line, &mut buffer, &mut text)?;
    }
    Ok(())
}

// A script longer than 65,536 bytes is cut, and then the output is not the one stored.
fn main(rt: HostRuntime) -> io::Result<()> {
    let mut script = Vec::new(rt.alloc());
    rt.reader().take(65_536).read_to_end(&mut script)?;
    run_script(&rt, &script)
}
