// The functions that the shelf knows, each with its code.
use model::Failure;

#[derive(Clone, Copy)]
pub(crate) enum Function {
    ReportGeneral = 0x00,
    ReportManufacturer = 0x01,
    ReportBroadcast = 0x06,
    ReportPhyErrorLog = 0x11,
    ReportPhyEvent = 0x14,
    ReportPhyEventList = 0x21,
    PhyControl = 0x91,
    ConfigurePhyEvent = 0x93,
}

// 01h is for a function that is "not 00h, 01h, 06h, 11h, 14h, 91h or 93h". #101: "function 21h joins the known
// functions, in the frame judge too"
impl TryFrom<u8> for Function {
    ghost use Rattle.gate.specs.Function.{Names};

    type Error = Failure;

    ghost try_from_gives = { Names };

    #[tactic(auto, unfolding(model::specs::Request::known))]
    fn try_from(code: u8) -> Result<Function, Failure> {
        match code {
            0x00 => Ok(Function::ReportGeneral),
            0x01 => Ok(Function::ReportManufacturer),
            0x06 => Ok(Function::ReportBroadcast),
            0x11 => Ok(Function::ReportPhyErrorLog),
            0x14 => Ok(Function::ReportPhyEvent),
            0x21 => Ok(Function::ReportPhyEventList),
            0x91 => Ok(Function::PhyControl),
            0x93 => Ok(Function::ConfigurePhyEvent),
            _ => Err(Failure::UnknownSmpFunction),
        }
    }
}
