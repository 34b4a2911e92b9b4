// Why bytes give no run.
use thiserror::Error;

/// Why bytes give no run.
#[derive(Clone, Copy, PartialEq, Eq, Debug, Error)]
pub enum RunFault {
    /// The length is not that of a run of this kind.
    #[error("the bytes are too many or too few for a run of this kind")]
    WrongLength,
    /// No run of this kind has these numbers.
    #[error("no run of this kind has these numbers")]
    NoRun,
}
