// How the answers to a script are spelled: each after a space.
//
// A text is printed, by a type, or laid at the start of bytes that are lent, by a function that cannot fail and asks nothing of
// its caller. Nothing here writes by itself. What each type prints and each function lays is proved to be what a definition of
// specs/ says, one for both, and `at_most` the smaller of two numbers.

#![tactic(auto)]

pub mod part;

ghost use Rattle.std.specs.Prelude.{◌≡◌, Some, length, take, drop};
ghost use Rattle.model.specs.Server.{over};
ghost use Rattle.spelling.specs.Part.{Counts};
ghost use Rattle.spelling.specs.Spelling.{hex_digit, house_text, set_text, response_text};

use gate::numbers::house_number;
use model::House;
use part::at_most;
use std::fmt;

// A house refusal, as H4 or H10, and a newline.
#[derive(Clone, Copy)]
pub struct HouseText(pub House);

impl fmt::Display for HouseText {
    ghost output = { λ refusal. Some (house_text refusal.0) };

    fn fmt<W: fmt::Write>(&self, f: &mut fmt::Formatter<W>) -> fmt::Result {
        writeln!(f, " H{}", house_number(self.0))
    }
}

// A set of phys as eight hexadecimal digits, a comma and a space.
#[derive(Clone, Copy)]
pub struct SetText(pub u32);

impl fmt::Display for SetText {
    ghost output = { λ phys. Some (set_text phys.0) };

    fn fmt<W: fmt::Write>(&self, f: &mut fmt::Formatter<W>) -> fmt::Result {
        let phys = self.0;
        write!(f, " {phys:08X}, ")
    }
}

// The first n of the bytes, or all of them where there are fewer.
fn first(n: usize, bytes: &[u8]) -> &[u8]
    ensures { result.now ≡ take n bytes.now }
{
    &bytes[..at_most(n, bytes)]
}

// The bytes of a response in hexadecimal, and a newline after the last. A response has at most 400 bytes; that from
// 1,365 bytes on the rest is left out is a promise that may not change.
#[derive(Clone, Copy)]
pub struct ResponseText<'a>(pub &'a [u8]);

impl fmt::Display for ResponseText<'_> {
    ghost output = { λ response. Some (response_text response.0.now) };

    fn fmt<W: fmt::Write>(&self, f: &mut fmt::Formatter<W>) -> fmt::Result {
        for &byte in first(1364, self.0) {
            write!(f, " {byte:02X}")?;
        }
        f.write_str("\n")
    }
}

// The digit of a value below 16, in uppercase; `?` stands for any other.
#[tactic(auto, unfolding(crate::specs::Spelling::hex_digit))]
fn hex_digit(value: u8) -> u8
    ensures { result ≡ hex_digit value }
{
    match value {
        0..=9 => b'0' + value,
        10..=15 => b'A' + (value - 10),
        _ => b'?',
    }
}

// Spells a house refusal, as H4 or H10, at the start of the text, with a newline, and gives how long
// that is; what stands behind stays.
pub fn house_text(house: House, text: &mut [u8; 5]) -> usize
    ensures size { Counts result text.new }
    ensures long { result ≡ length (house_text house) }
    ensures spelled { text.new ≡ over text.old (house_text house) }
{
    let number = house_number(house);
    if number < 10 {
        text[..4].copy_from_slice(&[b' ', b'H', hex_digit(number), b'\n']);
        return 4;
    }
    *text = [
        b' ',
        b'H',
        hex_digit(number / 10),
        hex_digit(number % 10),
        b'\n',
    ];
    5
}

// A set of phys as eight hexadecimal digits, a comma and a space.
pub fn set_text(phys: u32) -> [u8; 11]
    ensures { result ≡ set_text phys }
{
    [
        b' ',
        hex_digit((phys / 0x1000_0000) as u8),
        hex_digit((phys / 0x100_0000 % 16) as u8),
        hex_digit((phys / 0x10_0000 % 16) as u8),
        hex_digit((phys / 0x1_0000 % 16) as u8),
        hex_digit((phys / 0x1000 % 16) as u8),
        hex_digit((phys / 0x100 % 16) as u8),
        hex_digit((phys / 0x10 % 16) as u8),
        hex_digit((phys % 16) as u8),
        b',',
        b' ',
    ]
}

// Spells the bytes of a response in hexadecimal at the start of the text, with a newline after the
// last, and gives how long that is; what stands behind stays. There is room for any response, which has
// at most 400 bytes; from 1,365 bytes on the rest is left out.
pub fn spell(response: &[u8], text: &mut [u8; 4096]) -> usize
    ensures size { Counts result text.new }
    ensures spelled { take result text.new ≡ response_text response.now }
    ensures rest { drop result text.new ≡ drop result text.old }
{
    // a slice, since the proof speaks of its length
    let written: &mut [u8] = text;
    let n = at_most(1364, response);
    for i in 0..n {
        written[3 * i] = b' ';
        written[3 * i + 1] = hex_digit(response[i] / 16);
        written[3 * i + 2] = hex_digit(response[i] % 16);
    }
    written[3 * n] = b'\n';
    3 * n + 1
}
