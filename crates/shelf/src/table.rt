// The permission table: "thirty-two rows, one for each zone group". Whether it is legal.
ghost use Rattle.std.specs.Prelude.{◌≡◌, ◌<◌};
ghost use Rattle.model.specs.Zone.{row_symmetric, symmetric, legal_table};

use gate::zone::smp_row_reaches;

// bit h of row g is bit g of row h, for one row g and every h
fn row_symmetric(table: [u32; 32], g: u32) -> bool
    requires { g < 32 }
    ensures { result ≡ row_symmetric table g }
{
    // Both groups stand here, as a row's place and as a bit of the other row. (A fold that asks for all of them, and no `all`: a legal table
    // has none that fails, at which `all` would stop, and without that way out the compiler takes several at once.)
    (0..32u32).fold(true, |so_far, h| {
        so_far & (smp_row_reaches(table[g as usize], h) == smp_row_reaches(table[h as usize], g))
    })
}

// .. and for every row g
fn symmetric(table: [u32; 32]) -> bool
    ensures { result ≡ symmetric table }
{
    (0..32u32).fold(true, |so_far, g| so_far & row_symmetric(table, g))
}

// "A legal table is symmetric; row 1 is all ones; row 0 has bit 1 alone."
#[tactic(auto, unfolding(model::specs::Zone::legal_table))]
pub fn legal_table(table: [u32; 32]) -> bool
    ensures { result ≡ legal_table table }
{
    symmetric(table) && table[1] == 0xFFFF_FFFF && table[0] == 0x0000_0002
}
