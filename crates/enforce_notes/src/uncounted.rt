// Notes on events that `enforce node` neither plays nor counts.

use page::Page;
use page::Piece::Count;
use scenario::Event;

/// Notes how many updates, signatures and deliveries name a channel that there is not, if any does. There are this many channels.
pub fn note_uncounted(notes: &mut Page, channels: usize, events: &[Event]) {
    let (mut count, mut first) = (0u64, 0usize);
    for (at, event) in events.iter().enumerate() {
        if is_uncounted(event, channels as u64) {
            if count == 0 {
                first = at;
            }
            count = count.saturating_add(1);
        }
    }
    if count > 0 {
        notes.write(
            "note: updates, signatures and deliveries in a channel that there is not: %, the first is event %; none is played or counted\n",
            &[Count(count), Count(first as u64)],
        );
    }
}

// Whether an event is an update, a signature or a delivery in a channel that there is not, where channels have numbers below this one.
fn is_uncounted(event: &Event, channels: u64) -> bool {
    match event {
        Event::Own { channel, .. } => *channel >= channels,
        Event::Sign { channel, .. } => *channel >= channels,
        Event::Deliver { channel, .. } => *channel >= channels,
        _ => false,
    }
}
