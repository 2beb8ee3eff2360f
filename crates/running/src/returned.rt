//! What threads give back as they end. The seats that close the desks absorb those of the threads.

ghost use Rattle.std.specs.Prelude.{◌≡◌, [], ◌∷◌, IfOk, All, map};
ghost use Rattle.desk.specs.Seats.{IsSeatOf};
ghost use Rattle.running.specs.Threads.{HasServed, seat_in};
ghost use Rattle.running.specs.Homes.{TakesEach, IsLonePair, IsHandedBack, channel_seats_a, channel_seats_b, seats_a, seats_b};

use crate::chain_thread::ChainThread;
use crate::channel_thread::PlayedChannel;
use crate::counts::Counts;
use crate::shared::{ClosingSeats, SharedState, SideState};
use crate::side_threads::Served;
use desk::Seat;
use node::Hands;
use std::alloc::{AllocError, Global};
use world::errors::EventError;

/// What the threads give back that play events.
#[derive(Drop)]
pub(crate) struct PlayedEvents {
    pub(crate) channels: Vec<PlayedChannel>,
    pub(crate) chain_thread: ChainThread,
    /// Why each event was refused as one of the chain, if it was.
    pub(crate) outcomes: Vec<Option<EventError>>,
}

/// What all threads give back.
#[derive(Drop)]
pub(crate) struct Returned {
    pub(crate) played: PlayedEvents,
    /// A's workers and watcher.
    pub(crate) side_threads_a: Vec<Served>,
    /// B's workers and watcher.
    pub(crate) side_threads_b: Vec<Served>,
}

/// The counts of all channels. The only error is that memory ran out.
pub(crate) fn counts_of(
    alloc: Global,
    channels: &[PlayedChannel],
) -> Result<Vec<Counts>, AllocError>
    ensures { IfOk result (λ v. v.items ≡ map (λ p. p.counts) channels.now) }
{
    let mut counts = Vec::new(alloc);
    for channel in channels {
        counts.push(channel.counts)?;
    }
    Ok(counts)
}

// The closing seats absorb those of the channels' threads.
fn absorb_channel_seats(
    shared: &SharedState,
    closing_seats: &mut ClosingSeats,
    channels: Vec<PlayedChannel>,
)
    requires a { IsSeatOf shared.now.a.desk closing_seats.old.a }
    requires b { IsSeatOf shared.now.b.desk closing_seats.old.b }
    requires channels { All (IsLonePair shared.now) channels.items }
    ensures a { TakesEach shared.now.a.desk closing_seats.old.a (channel_seats_a channels.items)
        closing_seats.new.a }
    ensures b { TakesEach shared.now.b.desk closing_seats.old.b (channel_seats_b channels.items)
        closing_seats.new.b }
{
    for channel in channels {
        let PlayedChannel { a, b, .. } = channel;
        shared.a.desk.absorb(&mut closing_seats.a, a);
        shared.b.desk.absorb(&mut closing_seats.b, b);
    }
}

// The seat of a worker or a watcher.
fn seat_in(served: Served) -> Seat
    ensures { result ≡ seat_in served }
{
    match served {
        Served::Worked(_, hands) => {
            let Hands { seat, .. } = hands;
            seat
        }
        Served::Watched(seat) => seat,
    }
}

// A side's closing seat absorbs those of its workers and its watcher.
fn absorb_side_seats(side: &SideState, closing_seat: &mut Seat, side_threads: Vec<Served>)
    requires closing_seat { IsSeatOf side.now.desk closing_seat.old }
    requires side_threads { All (HasServed side.now) side_threads.items }
    ensures { TakesEach side.now.desk closing_seat.old (map seat_in side_threads.items)
        closing_seat.new }
{
    for served in side_threads {
        side.desk.absorb(closing_seat, seat_in(served));
    }
}

// The closing seats absorb those of the thread that played the events of the chain.
#[tactic(auto, using(crate::proofs::Homing::takes_one))]
fn absorb_chain_seats(
    shared: &SharedState,
    closing_seats: &mut ClosingSeats,
    chain_thread: ChainThread,
)
    requires a { IsSeatOf shared.now.a.desk closing_seats.old.a }
    requires b { IsSeatOf shared.now.b.desk closing_seats.old.b }
    requires chain_thread { IsHandedBack shared.now chain_thread }
    ensures a { TakesEach shared.now.a.desk closing_seats.old.a (chain_thread.a ∷ [])
        closing_seats.new.a }
    ensures b { TakesEach shared.now.b.desk closing_seats.old.b (chain_thread.b ∷ [])
        closing_seats.new.b }
{
    let ChainThread { a, b, .. } = chain_thread;
    shared.a.desk.absorb(&mut closing_seats.a, a);
    shared.b.desk.absorb(&mut closing_seats.b, b);
}

/// The closing seats absorb all others. Returns why each event was refused as one of the chain, if it was.
pub(crate) fn absorb_all_seats(
    shared: &SharedState,
    closing_seats: &mut ClosingSeats,
    returned: Returned,
) -> Vec<Option<EventError>>
    requires a { IsSeatOf shared.now.a.desk closing_seats.old.a }
    requires b { IsSeatOf shared.now.b.desk closing_seats.old.b }
    requires channels { All (IsLonePair shared.now) returned.played.channels.items }
    requires chain_thread { IsHandedBack shared.now returned.played.chain_thread }
    requires side_threads_a { All (HasServed shared.now.a) returned.side_threads_a.items }
    requires side_threads_b { All (HasServed shared.now.b) returned.side_threads_b.items }
    ensures a { TakesEach shared.now.a.desk closing_seats.old.a (seats_a returned)
        closing_seats.new.a }
    ensures b { TakesEach shared.now.b.desk closing_seats.old.b (seats_b returned)
        closing_seats.new.b }
    ensures outcomes { result.items ≡ returned.played.outcomes.items }
{
    let Returned {
        played,
        side_threads_a,
        side_threads_b,
    } = returned;
    let PlayedEvents {
        channels,
        chain_thread,
        outcomes,
    } = played;
    absorb_channel_seats(shared, closing_seats, channels);
    absorb_side_seats(&shared.a, &mut closing_seats.a, side_threads_a);
    absorb_side_seats(&shared.b, &mut closing_seats.b, side_threads_b);
    absorb_chain_seats(shared, closing_seats, chain_thread);
    outcomes
}
