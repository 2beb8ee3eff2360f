//! Writes the dump of a side's book, once the events of a scenario are played.

use crate::scenarios::coins::Told;
use book_dump::Dump as _;
use page::Page;
use scenario::Event;
use std::slice;
use terms::Side;
use world::World;

/// Plays the events, keeps which were refused, and writes the dump of a side's book, a line.
pub fn dump_played(
    line: &mut Page,
    world: &mut World,
    told: &mut Told,
    events: &[Event],
    side: Side,
) {
    match world.play(events) {
        Ok(outcomes) => {
            for (index, outcome) in outcomes.iter().enumerate() {
                told.note_refused(index, slice::from_ref(outcome));
            }
        }
        Err(_) => {
            line.fail();
            return;
        }
    }
    match world.book(side).dump(line.alloc()) {
        Ok(text) => {
            line.push(text.as_str());
            line.push("\n");
        }
        Err(_) => line.fail(),
    }
}
