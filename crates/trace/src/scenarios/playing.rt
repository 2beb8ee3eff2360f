//! Plays events one after another, and writes what they change.

ghost use Rattle.std.specs.Prelude.{IfOk, ◌∷◌, []};
ghost use Rattle.world.specs.Theorem.{IsPlay};

use crate::names::side_name;
use crate::scenarios::claims::{tell_claims, tell_jobs};
use crate::scenarios::coins::Told;
use crate::scenarios::commitments::tell_closed;
use crate::scenarios::messages::{tell_delivered, tell_own, tell_signed};
use crate::scenarios::mining::tell_mined;
use chain::Coins as _;
use page::Page;
use page::Piece::Count;
use scenario::Event;
use std::alloc::{AllocError, Global};
use std::slice;
use world::{Outcome, World};

// The channel of an event by which a side may come to know more of it.
fn talk_of(event: &Event) -> Option<u64> {
    match *event {
        Event::Own { channel, .. } | Event::Sign { channel, .. } | Event::Deliver { channel, .. } =>
            Some(channel),
        _ => None,
    }
}

impl Told {
    // Writes what a reorganisation changed, above this height.
    fn tell_reorganised(&mut self, alloc: Global, line: &mut Page, world: &World, above: u64) {
        self.tell_left(line, &[]);
        self.tell_joined(line, world.pool());
        line.push(r#","undone":["#);
        self.back_to(line, above);
        line.push("]");
        tell_mined(alloc, world, self, line, above);
        self.standing.tell_blocks(line, world, above);
    }

    // Writes what an accepted event changed, and at last what it put into the pool. The chain had height `before` when it came.
    fn tell_changes(
        &mut self,
        alloc: Global,
        line: &mut Page,
        world: &World,
        before: u64,
        event: &Event,
        outcome: &Outcome,
    ) {
        match *event {
            Event::Own { side, channel, .. } => tell_own(line, world, side, channel),
            Event::Sign { side, channel } => tell_signed(line, world, side, channel),
            Event::Deliver { side, channel } => tell_delivered(line, world, side, channel),
            Event::Keep {
                side,
                channel,
                number,
            } => line.write(
                r#","kept":{"side":"%","channel":%,"number":%}"#,
                &[side_name(side), Count(channel), Count(number)],
            ),
            Event::Look { side } => {
                if let Outcome::Looked { claims } = outcome {
                    tell_claims(line, self, world, side, *claims);
                }
                tell_jobs(line, world, side);
            }
            Event::Take { side, .. } | Event::Release { side, .. } => tell_jobs(line, world, side),
            Event::Blocks { .. } => {
                self.tell_left(line, world.pool());
                tell_mined(alloc, world, self, line, before);
                self.standing.tell_blocks(line, world, before);
            }
            Event::Reorg { depth, .. } => {
                self.tell_reorganised(alloc, line, world, before.saturating_sub(depth))
            }
            Event::Close { side, channel } => tell_closed(line, world, side, channel),
            Event::Broadcast { .. } | Event::BroadcastHtlc { .. } => {}
        }
        if let Some(channel) = talk_of(event) {
            self.standing.tell_channel(line, world, channel);
        }
        self.tell_joined(line, world.pool());
    }

    /// Ends the line of an event that was played: its outcome, the height, and what it changed. The chain had height `before` when it came.
    pub fn tell_played(
        &mut self,
        alloc: Global,
        line: &mut Page,
        world: &World,
        before: u64,
        event: &Event,
        outcomes: &[Outcome],
    ) {
        let [outcome] = outcomes else {
            line.fail();
            return;
        };
        line.push(r#","answer":""#);
        line.show(outcome);
        line.write(r#"","height":%"#, &[Count(world.chain().height())]);
        if !matches!(outcome, Outcome::Refused(_)) {
            self.tell_changes(alloc, line, world, before, event, outcome);
        }
        line.push("}\n");
    }

    /// Keeps which event was refused, if this one was, and the note on it if it is the first. Where memory runs out, it is not kept.
    pub fn note_refused(&mut self, index: usize, outcomes: &[Outcome]) {
        if let [Outcome::Refused(error)] = outcomes {
            let _ = self.refused.push(index);
            if self.first_refused.text().is_empty() {
                self.first_refused.count("note: event ", index as u64);
                self.first_refused.push(" is the first that was refused, ");
                self.first_refused.show(error);
                self.first_refused.push("\n");
            }
        }
    }
}

/// Plays an event, and returns its outcome as the only element of a list. The only error is that there was no memory for the list: then the
/// event was not played.
pub fn played(world: &mut World, event: &Event) -> Result<Vec<Outcome>, AllocError>
    ensures { IfOk result
        (λ outcomes. IsPlay world.old (event.now ∷ []) outcomes.items world.new) }
{
    world.play(slice::from_ref(event))
}
