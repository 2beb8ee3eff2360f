//! The thread of a channel.

ghost use Rattle.std.specs.Prelude.{◌≡◌, ◌+◌, ◌≤◌, IfOk};
ghost use Rattle.running.specs.Threads.{IsChannelThread};
ghost use Rattle.running.specs.Homes.{IsLonePair};
ghost use Rattle.running.specs.Acting.{IsTurnOf, Plays};
ghost use Rattle.running.specs.Events.{turn_of, turn_in};
ghost use Rattle.running.specs.Playing.{PlaysAll, IsPlayed};

use crate::acts::act_for;
use crate::counts::Counts;
use crate::endpoints::Endpoint;
use crate::shared::SharedState;
use desk::Seat;
use scenario::Event;
use std::alloc::AllocError;
use std::sync::Wait;
use terms::Side;

/// What a channel's thread has of its own.
#[derive(Drop)]
pub(crate) struct ChannelThread {
    /// The index of the channel.
    pub(crate) channel: u64,
    pub(crate) a: Endpoint,
    pub(crate) b: Endpoint,
}

/// What a channel's thread gives back. No end of a queue is in it, so that the workers see that no job comes any more.
#[derive(Drop)]
pub(crate) struct PlayedChannel {
    pub(crate) counts: Counts,
    /// Its seat at A's desk.
    pub(crate) a: Seat,
    /// Its seat at B's desk.
    pub(crate) b: Seat,
}

/// Whose turn an event is.
#[derive(Drop)]
pub(crate) struct Turn {
    pub(crate) side: Side,
    pub(crate) channel: u64,
}

// Whose turn an event is in a channel. `None` for an event of the chain alone, and for what workers and watchers do by themselves.
fn turn_of(event: &Event) -> Option<Turn>
    ensures { result ≡ turn_of event.now }
{
    match *event {
        Event::Own { side, channel, .. }
        | Event::Sign { side, channel }
        | Event::Deliver { side, channel }
        | Event::Close { side, channel } => Some(Turn { side, channel }),
        _ => None,
    }
}

// Whose turn an event is, if it is one of this channel.
fn turn_in(channel: u64, event: &Event) -> Option<Turn>
    ensures { result ≡ turn_in channel event.now }
{
    let turn = turn_of(event)?;
    if turn.channel != channel {
        return None;
    }
    Some(turn)
}

// Does what an event asks of a side. Returns whether it was done and not refused. The only error is that memory ran out.
fn play_turn<R: Wait>(
    rt: &R,
    shared: &SharedState,
    channel_thread: &mut ChannelThread,
    side: Side,
    event: &Event,
) -> Result<bool, AllocError>
    requires { IsChannelThread shared.now channel_thread.old }
    ensures channel_thread { IsChannelThread shared.now channel_thread.new }
    ensures channel { channel_thread.new.channel ≡ channel_thread.old.channel }
    ensures turned { IfOk result (IsTurnOf side event.now channel_thread.old channel_thread.new) }
{
    let channel = channel_thread.channel;
    match side {
        Side::A => act_for(
            rt,
            &shared.a,
            &mut channel_thread.a,
            &mut channel_thread.b.inbox,
            channel,
            event,
        ),
        Side::B => act_for(
            rt,
            &shared.b,
            &mut channel_thread.b,
            &mut channel_thread.a.inbox,
            channel,
            event,
        ),
    }
}

// Plays an event, if it is one of the channel, and counts it. The only error is that memory ran out.
fn play_event<R: Wait>(
    rt: &R,
    shared: &SharedState,
    channel_thread: &mut ChannelThread,
    event: &Event,
) -> Result<Counts, AllocError>
    requires { IsChannelThread shared.now channel_thread.old }
    ensures channel_thread { IsChannelThread shared.now channel_thread.new }
    ensures channel { channel_thread.new.channel ≡ channel_thread.old.channel }
    ensures few { IfOk result (λ c. c.played + c.refused ≤ 1) }
    ensures plays { IfOk result
        (Plays (turn_in channel_thread.old.channel event.now) event.now channel_thread.old
        channel_thread.new) }
{
    let Some(turn) = turn_in(channel_thread.channel, event) else {
        return Ok(Counts {
            played: 0,
            refused: 0,
        });
    };
    let is_done = play_turn(rt, shared, channel_thread, turn.side, event)?;
    if is_done {
        Ok(Counts {
            played: 1,
            refused: 0,
        })
    } else {
        Ok(Counts {
            played: 0,
            refused: 1,
        })
    }
}

// Plays the events of a channel, in their order. The only error is that memory ran out.
fn play_all<R: Wait>(
    rt: &R,
    shared: &SharedState,
    events: &[Event],
    channel_thread: &mut ChannelThread,
) -> Result<Counts, AllocError>
    requires { IsChannelThread shared.now channel_thread.old }
    ensures channel_thread { IsChannelThread shared.now channel_thread.new }
    ensures plays { IfOk result (PlaysAll events.now channel_thread.old channel_thread.new) }
{
    let mut counts = Counts {
        played: 0,
        refused: 0,
    };
    for index in 0..events.len() {
        let more = play_event(rt, shared, channel_thread, &events[index])?;
        counts = Counts {
            played: counts.played + more.played,
            refused: counts.refused + more.refused,
        };
    }
    Ok(counts)
}

// The seat of an endpoint. The rest is dropped.
fn seat_of(endpoint: Endpoint) -> Seat
    ensures { result ≡ endpoint.seat }
{
    let Endpoint { seat, .. } = endpoint;
    seat
}

// What a channel's thread gives back after its events were played, with these counts.
fn give_back(channel_thread: ChannelThread, counts: Counts) -> PlayedChannel
    ensures counts { result.counts ≡ counts }
    ensures a { result.a ≡ channel_thread.a.seat }
    ensures b { result.b ≡ channel_thread.b.seat }
{
    let ChannelThread { a, b, .. } = channel_thread;
    PlayedChannel {
        counts,
        a: seat_of(a),
        b: seat_of(b),
    }
}

/// Plays the events of a channel, and gives back the seats of its thread. The only error is that memory ran out.
#[tactic(auto, using(crate::proofs::Playing::gives_back, crate::proofs::Playing::lone_pair))]
pub(crate) fn play_channel<R: Wait>(
    rt: &R,
    shared: &SharedState,
    events: &[Event],
    mine: ChannelThread,
) -> Result<PlayedChannel, AllocError>
    requires { IsChannelThread shared.now mine }
    ensures played { IfOk result (IsPlayed events.now mine) }
    ensures seats { IfOk result (IsLonePair shared.now) }
{
    let mut channel_thread = mine;
    let counts = play_all(rt, shared, events, &mut channel_thread)?;
    Ok(give_back(channel_thread, counts))
}
