// What an operation of the script comes to, and how it is written after the line itself and an arrow.
//
// By the functions of `spelling` and not by `Display`: they promise the text for every value, and cannot fail; `fmt` promises none where it
// fails, and wrote a long response in two pieces, byte by byte, at ten times the cost.
use model::House;
use spelling::{house_text, set_text, spell};
use std::io;

#[derive(Clone, Copy)]
pub(crate) enum Told<'a> {
    Response(&'a [u8]),
    // The set of phys, and how many they are.
    Reached { phys: u32, number: u32 },
    // A report, and whether its own addition to an error count was cut (#104).
    Done { cut: bool },
    Refused(House),
}

fn print_house(rt: &impl Print, house: House) -> io::Result<()> {
    let mut text = [0u8; 5];
    let n = house_text(house, &mut text);
    rt.write_all(&text[..n])
}

fn print_response(rt: &impl Print, response: &[u8], text: &mut [u8; 4096]) -> io::Result<()> {
    let n = spell(response, text);
    rt.write_all(&text[..n])
}

// The text is where a response is laid.
pub(crate) fn print_told(rt: &impl Print, told: Told<'_>, text: &mut [u8; 4096]) -> io::Result<()> {
    match told {
        Told::Response(response) => print_response(rt, response, text),
        Told::Reached { phys, number } => {
            rt.write_all(&set_text(phys))?;
            rt.println(number)
        }
        Told::Done { cut: true } => rt.write_all(b" done, cut\n"),
        Told::Done { cut: false } => rt.write_all(b" done\n"),
        Told::Refused(house) => print_house(rt, house),
    }
}
