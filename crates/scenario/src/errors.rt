//! Why a text is refused as a scenario.

ghost use Rattle.std.specs.Prelude.{◌≡◌};
ghost use Rattle.scenario.specs.Refusals.{refusal_number};

use thiserror::Error;

/// Why a text is refused as a scenario. Channels are counted from 0.
#[derive(Clone, Copy, Debug, PartialEq, Eq, Drop, Error)]
pub enum ScenarioError {
    /// Memory ran out.
    #[error("NoMemory")]
    NoMemory,
    /// Invalid JSON.
    #[error("NotJson")]
    NotJson,
    /// The JSON value does not have the shape of a scenario.
    #[error("BadShape")]
    BadShape,
    /// There are more than 8 channels, more than 10,000 events, or more than 10,000 blocks in one event.
    #[error("OverLimit")]
    OverLimit,
    /// The first channel on whose terms the two sides can't agree.
    #[error("BadTerms {0}")]
    BadTerms(usize),
}

impl ScenarioError {
    /// The number of the refusal; 0 is out of memory.
    pub fn number(&self) -> u8
        ensures { result ≡ refusal_number self.now }
    {
        match self {
            ScenarioError::NoMemory => 0,
            ScenarioError::NotJson => 1,
            ScenarioError::BadShape => 2,
            ScenarioError::OverLimit => 3,
            ScenarioError::BadTerms(_) => 4,
        }
    }
}
