// Why words are refused.
use thiserror::Error;

/// Why words are no command.
#[derive(Clone, Copy, Debug, PartialEq, Eq, Error)]
pub enum WordRefusal {
    #[error("usage")]
    Usage,
    #[error("out of memory")]
    Memory,
}
