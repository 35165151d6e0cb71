//! What ends a command early.
ghost use Rattle.std.specs.Prelude.{◌≡◌};
ghost use Rattle.dai_top.specs.Stops.{stop_of};

use dai_base::{Fault, Spent};
use dai_front::ReadError;

/// Why there is no answer but a refusal: a fault, or want of memory.
#[derive(Clone, Copy)]
pub enum Stop {
    Fault(Fault),
    Spent,
}

impl From<Spent> for Stop {
    ghost use Rattle.dai_top.specs.declared.stop.Stop.TheVariants.{Spent as spent};

    ghost from_gives = { λ _ error. error ≡ spent };

    fn from(_error: Spent) -> Stop {
        Stop::Spent
    }
}

/// The refusal of bytes that are no protocol.
pub fn no_protocol(error: ReadError) -> Stop
    ensures { result ≡ stop_of error }
{
    match error {
        ReadError::Bad { number, at } => Stop::Fault(Fault::InFile { number, at }),
        ReadError::Spent => Stop::Spent,
    }
}
