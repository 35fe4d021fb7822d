// A write that originates no Change and stores nothing (#101).
ghost use Rattle.std.specs.Prelude.{◌≡◌};
ghost use Rattle.model.specs.Counting.{quiet};

use model::{Effect, Phy};

// The phy afterwards, and nothing else.
pub(crate) fn quiet(after: Phy) -> Effect
    ensures { result ≡ quiet after }
{
    Effect {
        phy: after,
        change: false,
        stored: [None; 4],
    }
}
