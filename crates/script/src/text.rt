// Reading a line of the script by a form.
//
// In a form # stands for a decimal number and $ for a hexadecimal one; any other byte stands for
// itself. A reading goes on from an earlier one. Where something is not as the form has it, it is an `Err`: how far the line
// was read all the same, by the whole form, and the last three numbers.
ghost use Rattle.std.specs.Prelude.{◌≡◌, ◌≤◌, drop, length};
ghost use Rattle.script.specs.Text.{unread, digit, longer, digits};
ghost use Rattle.script.specs.Text.{read_number, read_byte, read_one, read_next, read_on, read, read_whole};

// How far a line has been read, and the last three numbers, the latest as `third`. (The line stays beside it, a parameter of each
// function: of a struct that holds a reference a clause has to say which of two moments it means.)
#[derive(Clone, Copy)]
pub struct Reading {
    pub at: usize,
    pub first: u32,
    pub second: u32,
    pub third: u32,
}

// Digits that were read: the number, and how many they are. (No `Option` of it: digits go on from a number that has none yet.)
#[derive(Clone, Copy)]
struct Number {
    value: u32,
    length: usize,
}

// Nothing is read yet.
pub fn unread() -> Reading
    ensures { result ≡ unread }
{
    Reading {
        at: 0,
        first: 0,
        second: 0,
        third: 0,
    }
}

// The value of a digit of this base, in uppercase.
#[tactic(auto, unfolding(crate::specs::Text::digit))]
fn digit(byte: u8, base: u32) -> Option<u32>
    ensures { result ≡ digit base byte }
{
    let value = match byte {
        b'0'..=b'9' => (byte - b'0') as u32,
        b'A'..=b'F' => (byte - b'A') as u32 + 10,
        _ => return None,
    };
    (value < base).then_some(value)
}

// A number of this base with one more digit, in 32 bits; what is larger counts as the largest. (A base is no kind: it is multiplied by.)
fn longer(value: u32, base: u32, digit: u32) -> u32
    ensures { result ≡ longer value base digit }
{
    value.saturating_mul(base).saturating_add(digit)
}

// Reads digits of base 10 or 16, up to the first byte that is none.
#[tactic(auto, using(crate::proofs::Left::digits_turn, crate::proofs::Left::digits_stop, crate::proofs::Left::digits_end))]
fn digits(bytes: &[u8], base: u32) -> Number
    ensures read { result ≡ digits base bytes.now 0 0 }
    ensures within { result.length ≤ length bytes.now }
{
    let mut value = 0;
    let mut length = 0;
    for &byte in bytes {
        let Some(digit) = digit(byte, base) else {
            break;
        };
        value = longer(value, base, digit);
        length += 1;
    }
    Number { value, length }
}

// Reads a number, of at least one digit; of none the number is 0, and does not fit.
#[tactic(auto, unfolding(crate::specs::Text::read_number))]
fn read_number(line: &[u8], from: Reading, base: u32) -> Result<Reading, Reading>
    ensures { result ≡ read_number line.now from base }
{
    let number = digits(line.get(from.at..).unwrap_or(&[]), base);
    let next = Reading {
        at: from.at + number.length,
        first: from.second,
        second: from.third,
        third: number.value,
    };
    if number.length == 0 {
        return Err(next);
    }
    Ok(next)
}

// Reads this very byte; another is passed over, and does not fit.
#[tactic(auto, unfolding(crate::specs::Text::read_byte))]
fn read_byte(line: &[u8], from: Reading, byte: u8) -> Result<Reading, Reading>
    ensures { result ≡ read_byte line.now from byte }
{
    let Some(&there) = line.get(from.at) else {
        return Err(from);
    };
    let next = Reading {
        at: from.at + 1,
        ..from
    };
    if there != byte {
        return Err(next);
    }
    Ok(next)
}

// Reads what one byte of a form stands for.
#[tactic(auto, unfolding(crate::specs::Text::read_one))]
fn read_one(line: &[u8], from: Reading, form: u8) -> Result<Reading, Reading>
    ensures { result ≡ read_one line.now from form }
{
    match form {
        b'#' => read_number(line, from, 10),
        b'$' => read_number(line, from, 16),
        _ => read_byte(line, from, form),
    }
}

// Reads on by one byte of a form. What follows a misfit does not fit either, and is read all the same.
fn read_next(line: &[u8], so_far: Result<Reading, Reading>, one: u8) -> Result<Reading, Reading>
    ensures { result ≡ read_next line.now so_far one }
{
    let (Ok(from) | Err(from)) = so_far;
    let next = read_one(line, from, one);
    match so_far {
        Ok(_) => next,
        Err(_) => next.and_then(Err),
    }
}

// Reads on by a form from what fits so far, or does not.
#[tactic(auto, using(crate::proofs::Left::read_turn, crate::proofs::Left::read_end))]
pub(crate) fn read_on(
    line: &[u8],
    so_far: Result<Reading, Reading>,
    form: &[u8],
) -> Result<Reading, Reading>
    ensures { result ≡ read_on line.now so_far form.now }
{
    let mut next = so_far;
    for &one in form {
        next = read_next(line, next, one);
    }
    next
}

// Reads on by a form.
pub fn read(line: &[u8], from: Reading, form: &[u8]) -> Result<Reading, Reading>
    ensures { result ≡ read line.now from form.now }
{
    read_on(line, Ok(from), form)
}

// Reads on by a form to the end of the line.
pub fn read_whole(line: &[u8], from: Reading, form: &[u8]) -> Option<Reading>
    ensures { result ≡ read_whole line.now from form.now }
{
    read(line, from, form)
        .ok()
        .filter(|next| line.len() <= next.at)
}
