// Why input is refused.

use paths::CheckError;
use script::ParseError;
use std::alloc::AllocError;
use thiserror::Error;

/// Why a message or a script is refused.
#[derive(Debug, Drop, Error)]
pub enum ScriptError {
    /// Memory ran out.
    #[error("NoMemory")]
    NoMemory,
    /// A text is not hexadecimal.
    #[error("BadHex")]
    BadHex,
    /// The bytes are not a script.
    #[error("{0}")]
    Parse(ParseError),
    /// The script's paths can't be listed.
    #[error("{0}")]
    Check(CheckError),
}

impl From<AllocError> for ScriptError {
    fn from(_error: AllocError) -> ScriptError {
        ScriptError::NoMemory
    }
}
