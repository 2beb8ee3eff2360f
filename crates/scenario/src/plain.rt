//! Scenarios as read from JSON.

use crate::events::Event;
use json_value::Value;
use lists::List;
use std::alloc::Global;
use terms::ProposedTerms;
use texts::{FromValue, ReadValue, ShapeError, member, object_of, read_member};

/// A scenario as read from JSON: the seeds of the two sides, the terms of their channels, and the events. The limits and the sides'
/// agreement on terms are not tested yet.
#[derive(Debug, Drop)]
pub struct PlainScenario {
    pub seed_a: [u8; 32],
    pub seed_b: [u8; 32],
    pub channels: List<ProposedTerms>,
    pub events: List<Event>,
}

impl ReadValue for Event {
    ghost use Rattle.scenario.specs.Events.{event_of};

    ghost reads = { event_of };

    fn read_value(_alloc: Global, value: &Value) -> Result<Event, ShapeError> {
        Event::from_value(value).ok_or(ShapeError::BadShape)
    }
}

/// An object of three members: `channels`, `events` and `seeds`.
impl ReadValue for PlainScenario {
    ghost use Rattle.scenario.specs.Scenarios.{scenario_of};

    ghost reads = { scenario_of };

    #[tactic(auto, unfolding(crate::specs::Scenarios::scenario_of))]
    fn read_value(alloc: Global, value: &Value) -> Result<PlainScenario, ShapeError> {
        let form = object_of(value, 3).ok_or(ShapeError::BadShape)?;
        let seeds: ([u8; 32], [u8; 32]) = member(form, "seeds").ok_or(ShapeError::BadShape)?;
        Ok(PlainScenario {
            seed_a: seeds.0,
            seed_b: seeds.1,
            channels: read_member(alloc, form, "channels")?,
            events: read_member(alloc, form, "events")?,
        })
    }
}
