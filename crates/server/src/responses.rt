// What is sent into the lent buffer.
ghost use Rattle.std.specs.Prelude.{◌≡◌, ◌≤◌, length};
ghost use Rattle.model.specs.Server.{least_buffer, answer, lent};
ghost use Rattle.server.specs.Serving.{judged_reply};
ghost use Rattle.server.specs.Sending.{IsSent};

use model::{Answer, Fault, Judged};
use replies::sending::send_result;

// Where no request could be read from the frame: H6 or H10, or 01h or 03h in a failed response.
pub(crate) fn turned_away(judged: Judged, function: u8, out: &mut [u8]) -> Answer
    requires { least_buffer ≤ length out.old }
    ensures told { result ≡ answer (judged_reply function judged) }
    ensures left { out.new ≡ lent out.old (judged_reply function judged) }
{
    match judged {
        // never run: `serve` has taken the request out before, by `let .. else`, a form that document 01 names, which leaves the
        // judgement whole
        Ok(_) => Ok(0),
        Err(Fault::NoFrame(house)) => Err(house),
        Err(Fault::Fails(failure)) => Ok(send_result(function, Err(failure), out)),
    }
}

// Bytes, copied to the front of the lent buffer. Gives how many they are.
pub(crate) fn send(bytes: &[u8], out: &mut [u8]) -> usize
    requires { length bytes.now ≤ length out.old }
    ensures { IsSent out.old bytes.now result out.new }
{
    out[..bytes.len()].copy_from_slice(bytes);
    bytes.len()
}
