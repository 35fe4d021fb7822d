// How a count moves: originating, the addition that wraps, and the addition that stops and says so.
ghost use Rattle.std.specs.Prelude.{◌≡◌};
ghost use Rattle.model.specs.Counting.{originate, add_wrapping, add_saturating};

use model::Added;

// "Originating adds one to that count; FFFFh goes to 0001h." The change count moves the same way.
#[tactic(auto, unfolding(model::specs::Counting::originate))]
pub fn originate(count: u16) -> u16
    ensures { result ≡ originate count }
{
    count.checked_add(1).unwrap_or(0x0001)
}

// "counting values wrap at 32 bits"
pub fn add_wrapping(value: u32, amount: u32) -> u32
    ensures { result ≡ add_wrapping value amount }
{
    value.wrapping_add(amount)
}

// "the four error counts .., which stop at FFFFFFFFh". #104: "The saturating addition must answer whether the exact sum was
// above FFFFFFFFh, as well as the new number."
pub fn add_saturating(count: u32, amount: u32) -> Added
    ensures { result ≡ add_saturating count amount }
{
    match count.checked_add(amount) {
        Some(number) => Added { number, cut: false },
        None => Added {
            number: 0xFFFF_FFFF,
            cut: true,
        },
    }
}
