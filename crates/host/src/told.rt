// What C is told, as one number of 32 bits: bit 31 and the number of a house refusal, or the number that stands for the answer.
// (A function to each answer, and no trait of them: what stands for it is all that a function says.)
ghost use Rattle.std.specs.Prelude.{◌≡◌};
ghost use Rattle.host.specs.Told.{refused_told, taken_told, event_told, answer_told, reach_told, AnswerFits, ReachFits};

use gate::numbers::house_number;
use model::{Answer, EventAnswer, House, Reach, Taken};

// A house refusal: bit 31, and its number.
fn refused_told(house: House) -> u32
    ensures { result ≡ refused_told house }
{
    0x8000_0000 + u32::from(house_number(house))
}

// A start or a link change: 0 where it is done.
pub(crate) fn taken_told(taken: Taken) -> u32
    ensures { result ≡ taken_told taken }
{
    taken.map_or_else(refused_told, |()| 0)
}

// An event report: 0 where it is counted, and 1 where its own addition to an error count was cut (#104).
pub(crate) fn event_told(answer: EventAnswer) -> u32
    ensures { result ≡ event_told answer }
{
    answer.map_or_else(refused_told, |counted| u32::from(counted.cut))
}

// A request: the length of the response, which has at most 400 bytes.
pub(crate) fn answer_told(answer: Answer) -> u32
    requires { AnswerFits answer }
    ensures { result ≡ answer_told answer }
{
    // a match and not `map_or_else`: the cast leans on what is asked of the answer, which a closure would have to ask again
    match answer {
        Ok(size) => size as u32,
        Err(house) => refused_told(house),
    }
}

// A reach query: the set of phys in bits 0 to 23, and how many they are above them.
pub(crate) fn reach_told(reach: Reach) -> u32
    requires { ReachFits reach }
    ensures { result ≡ reach_told reach }
{
    // likewise
    match reach {
        Ok(reached) => reached.number * 0x1000000 + reached.phys,
        Err(house) => refused_told(house),
    }
}
