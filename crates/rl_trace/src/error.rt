//! The error of a run.

use rl_base::error::OutOfMemory;
use thiserror::Error;

/// An error of a call that runs a function. It leaves nothing behind.
#[derive(Debug, Drop, Clone, Copy, PartialEq, Eq, Error)]
pub enum RunError {
    /// The number names no function.
    #[error("No such function")]
    NoFunction,
    /// An allocation failed.
    #[error("OutOfMemory")]
    OutOfMemory,
}

impl From<OutOfMemory> for RunError {
    ghost use Rattle.rl_trace.specs.declared.error.RunError.TheVariants.{OutOfMemory};
    ghost use Rattle.std.specs.Prelude.{◌≡◌};

    ghost from_gives = { λ _ e. e ≡ OutOfMemory };

    fn from(_e: OutOfMemory) -> RunError {
        RunError::OutOfMemory
    }
}
