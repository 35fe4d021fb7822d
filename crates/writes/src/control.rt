// What an accepted 91h does to its phy.
ghost use Rattle.std.specs.Prelude.{◌≡◌};
ghost use Rattle.model.specs.Writes.{without_errors, controlled};
ghost use Rattle.writes.specs.Operation.{operation_code};

use crate::effects::quiet;
use crate::operation::PhyOperation;
use counters::phy::change_on;
use model::{Effect, Phy};

// "05h sets the four error counts to 0"
fn without_errors(before: Phy) -> Phy
    ensures { result ≡ without_errors before }
{
    Phy {
        errors: [0; 4],
        ..before
    }
}

// "00h none; 01h link reset enables the phy and originates Change; 03h disable originates Change only if
// the phy was enabled; 05h sets the four error counts to 0."
#[tactic(auto, unfolding(model::specs::Writes::controlled))]
fn performed(operation: PhyOperation, before: Phy) -> Effect
    ensures { result ≡ controlled (operation_code operation) before }
{
    match operation {
        PhyOperation::NoOperation => quiet(before),
        PhyOperation::LinkReset => change_on(true, before),
        PhyOperation::Disable => if before.enabled {
            change_on(false, before)
        } else {
            quiet(before)
        },
        PhyOperation::ClearErrorLog => quiet(without_errors(before)),
    }
}

// .. and "any operation not named" does nothing: a 91h that asks for one is not accepted.
#[tactic(auto, unfolding(model::specs::Writes::controlled, model::specs::Results::known_operation))]
pub fn controlled(operation: u8, before: Phy) -> Effect
    ensures { result ≡ controlled operation before }
{
    match PhyOperation::try_from(operation) {
        Ok(known) => performed(known, before),
        Err(_) => quiet(before),
    }
}
