// Shelf W of document 01: "Four phys, groups 8, 8, 9, 1; row 8 has bits 1 and 8; row 9 bits 1 and 9;
// other rows from 2 up bit 1 alone. The identifier is the bytes 01h, 02h and so on to 08h."
ghost use Rattle.std.specs.Prelude.{◌≡◌};
ghost use Rattle.model.specs.ShelfW.{shelf_w};
ghost use Rattle.words.specs.Words.{words_of};

use server::start;
use words::WORDS;

// Starts shelf W in these words, which is not refused. The groups past the phy number are ignored; "row 1 is all ones; row 0 has
// bit 1 alone", or the table would not be legal.
pub fn shelf_w(words: &mut [u32; WORDS])
    ensures { words.new ≡ words_of shelf_w }
{
    let mut groups = [0u32; 24];
    groups[..4].copy_from_slice(&[8, 8, 9, 1]);
    let mut table = [0x0000_0002u32; 32];
    table[1] = 0xFFFF_FFFF;
    table[8] = 0x0000_0102;
    table[9] = 0x0000_0202;
    start(
        words,
        4,
        groups,
        table,
        [0x01, 0x02, 0x03, 0x04, 0x05, 0x06, 0x07, 0x08],
    )
    .unwrap();
}
