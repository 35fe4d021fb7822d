// The phy operations of a 91h.
ghost use Rattle.std.specs.Prelude.{◌≡◌, MatchResult};

use model::Failure;

// "00h none; 01h link reset ..; 03h disable ..; 05h sets the four error counts to 0", by their T10 names and each with its
// code.
#[derive(Clone, Copy, Debug, PartialEq, Eq)]
pub enum PhyOperation {
    NoOperation = 0x00,
    LinkReset = 0x01,
    Disable = 0x03,
    ClearErrorLog = 0x05,
}

// "13h UNKNOWN PHY OPERATION (91h, any operation not named below)"
impl TryFrom<u8> for PhyOperation {
    ghost use Rattle.writes.specs.Operation.{Names};

    type Error = Failure;

    ghost try_from_gives = { Names };

    #[tactic(auto, unfolding(model::specs::Results::known_operation))]
    fn try_from(code: u8) -> Result<PhyOperation, Failure> {
        match code {
            0x00 => Ok(PhyOperation::NoOperation),
            0x01 => Ok(PhyOperation::LinkReset),
            0x03 => Ok(PhyOperation::Disable),
            0x05 => Ok(PhyOperation::ClearErrorLog),
            _ => Err(Failure::UnknownPhyOperation),
        }
    }
}
