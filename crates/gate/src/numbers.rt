// The numbers that document 01 gives the house refusals and the function results; #103 adds one to those, and #101 one to these.
ghost use Rattle.std.specs.Prelude.{◌≡◌};
ghost use Rattle.model.specs.House.{house_number};
ghost use Rattle.model.specs.Results.{result_code};

use model::{FunctionResult, House};

// "House refusals", by number
pub fn house_number(house: House) -> u8
    ensures { result ≡ house_number house }
{
    house as u8
}

// "Function results", by code
pub fn result_code(res: FunctionResult) -> u8
    ensures { result ≡ result_code res }
{
    match res {
        Ok(()) => 0x00,
        Err(failure) => failure as u8,
    }
}
