//! Why a call of the outside gave nothing.

use thiserror::Error;

/// Why a call on files failed.
#[derive(Clone, Copy, Debug, PartialEq, Eq, Error)]
pub enum FileFault {
    #[error("the file could not be read or written")]
    Failed,
    #[error("out of memory")]
    OutOfMemory,
}

/// Why a call on the console failed.
#[derive(Clone, Copy, Debug, PartialEq, Eq, Error)]
pub enum ConsoleFault {
    #[error("the console could not be written")]
    Failed,
}
