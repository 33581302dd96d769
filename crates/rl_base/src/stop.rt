use crate::diagnostic::Diagnostic;
use crate::error::OutOfMemory;
use thiserror::Error;

/// The cause that ends the lowering of a unit, or of a part of it.
#[derive(Debug, Drop, Error)]
pub enum Stop {
    /// A diagnostic that ends the lowering at once.
    #[error("Diagnostic")]
    Diagnostic(Diagnostic),
    /// An allocation failed.
    #[error("OutOfMemory")]
    OutOfMemory,
}

impl From<OutOfMemory> for Stop {
    ghost use Rattle.rl_base.specs.declared.stop.Stop.TheVariants.{OutOfMemory};
    ghost use Rattle.std.specs.Prelude.{◌≡◌};

    ghost from_gives = { λ _ e. e ≡ OutOfMemory };

    fn from(_e: OutOfMemory) -> Stop {
        Stop::OutOfMemory
    }
}
