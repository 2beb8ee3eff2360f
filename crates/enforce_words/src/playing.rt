// Reads and plays a scenario.

use crate::endings::text_of;
use crate::errors::CommandError;
use crate::refused::first_refused;
use scenario::{Event, Scenario};
use std::alloc::Global;
use std::io;
use std::io::Read;
use streams::MAX_INPUT;
use world::World;

/// Plays the scenario in the input, and returns the lines of its events and of the world after them. Its refusals come in this order: input that can't be read
/// (`ReadFailed`), input that is too long (`TooLong`), and what [`Scenario::read`] refuses. The note on the first refused event is appended to `note`, unless memory runs out in it.
pub fn play<R: Read>(
    alloc: Global,
    input: &mut R,
    note: &mut String,
) -> Result<String, CommandError> {
    let scenario = scenario_in(alloc, input)?;
    play_scenario(alloc, &scenario, note)
}

/// The scenario in the input. Its refusals come in this order: input that can't be read (`ReadFailed`), input that is too long (`TooLong`), and what
/// [`Scenario::read`] refuses.
pub fn scenario_in<R: Read>(alloc: Global, input: &mut R) -> Result<Scenario, CommandError> {
    let text = read_all(alloc, input)?;
    Scenario::read(alloc, text.as_slice()).map_err(CommandError::Scenario)
}

// Reads the whole input, but at most one byte above the limit.
fn read_all<R: Read>(alloc: Global, input: &mut R) -> Result<Vec<u8>, CommandError> {
    let mut bytes = Vec::new(alloc);
    match input.take(MAX_INPUT as u64 + 1).read_to_end(&mut bytes) {
        Ok(_) => {}
        Err(error) if error.kind() == io::ErrorKind::OutOfMemory => return Err(
            CommandError::NoMemory,
        ),
        Err(_) => return Err(CommandError::ReadFailed),
    }
    if bytes.len() > MAX_INPUT {
        return Err(CommandError::TooLong);
    }
    Ok(bytes)
}

// Plays a scenario in a new world, and returns the lines of its events and of the world after them.
fn play_scenario(
    alloc: Global,
    scenario: &Scenario,
    note: &mut String,
) -> Result<String, CommandError> {
    let world = World::new(alloc, &scenario.seeds, scenario.channels.values());
    let mut world = world.map_err(CommandError::World)?;
    lines_of(alloc, &mut world, scenario.events.values(), note)
}

// Plays events in a world, and returns the lines. The only error is that memory ran out.
fn lines_of(
    alloc: Global,
    world: &mut World,
    events: &[Event],
    note: &mut String,
) -> Result<String, CommandError> {
    let outcomes = world.play(events)?;
    let text = text_of(alloc, outcomes.as_slice(), world)?;
    if let Ok(line) = first_refused(alloc, events, outcomes.as_slice()) {
        let _ = note.push_str(line.as_str());
    }
    Ok(text)
}
