// Sending a result: four bytes into the lent buffer.
ghost use Rattle.model.specs.Reply.{failed};
ghost use Rattle.model.specs.Results.{result_code};
ghost use Rattle.replies.specs.Sent.{Sent};

use crate::fixed::failed;
use gate::numbers::result_code;
use model::{FunctionResult, LEAST_BUFFER};

// "A failed response is 41h, the function, the result, 00h.", and so is that of an accepted write, with the result
// 00h. Gives the length of what it sent: into a buffer that is too short nothing is sent.
pub fn send_result(function: u8, res: FunctionResult, out: &mut [u8]) -> usize
    ensures { Sent out.old (failed function (result_code res)) result out.new }
{
    // 0 bytes and not an `Option` where nothing is sent: `Sent` promises the length of what was sent
    if out.len() < LEAST_BUFFER {
        return 0;
    }
    out[..4].copy_from_slice(&failed(function, result_code(res)));
    4
}
