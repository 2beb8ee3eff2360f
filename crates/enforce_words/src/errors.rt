// Why input is refused.

use scenario::ScenarioError;
use script_words::ScriptError;
use std::alloc::AllocError;
use thiserror::Error;
use world::errors::WorldError;

/// Why input is refused.
#[derive(Debug, Drop, Error)]
pub enum CommandError {
    /// Memory ran out.
    #[error("NoMemory")]
    NoMemory,
    /// A message or a script is refused.
    #[error("{0}")]
    Script(ScriptError),
    /// The input has more than 4,194,304 bytes.
    #[error("TooLong")]
    TooLong,
    /// The input can't be read.
    #[error("ReadFailed")]
    ReadFailed,
    /// The input is not a scenario.
    #[error("{0}")]
    Scenario(ScenarioError),
    /// The world of the scenario does not begin.
    #[error("{0}")]
    World(WorldError),
}

impl From<AllocError> for CommandError {
    fn from(_error: AllocError) -> CommandError {
        CommandError::NoMemory
    }
}
