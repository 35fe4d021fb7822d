// The row test: whether a row of the permission table reaches a zone group.
ghost use Rattle.std.specs.Prelude.{◌≡◌};
ghost use Rattle.model.specs.Zone.{row_reaches};

// "whether a given row reaches a given group (no, for a group above 31)" (A return and no `&&`: with that a start, which asks it of every
// pair of a table, takes more instructions, and more stack than firmware/kinubarsil.h says.)
#[tactic(auto, unfolding(model::specs::Zone::row_reaches))]
#[unsafe(no_mangle)]
pub extern "C" fn smp_row_reaches(row: u32, group: u32) -> bool
    ensures { result ≡ row_reaches row group }
{
    if 31 < group {
        return false;
    }
    (row >> group) % 2 == 1
}
