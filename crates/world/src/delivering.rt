//! Updates, signatures and deliveries.

ghost use Rattle.std.specs.Prelude.{◌≡◌, ◌<◌, true, [], ◌++◌, drop, slice_get};
ghost use Rattle.std.specs.VecDeque.{deque_len, deque_capacity};
ghost use Rattle.std.specs.List.{cons_option};
ghost use Rattle.book.specs.declared.calls.Call.TheVariants.{Step as Stepping, Sign as Signing};
ghost use Rattle.book.specs.Acts.{messages_in};
ghost use Rattle.world.specs.Worlds.{answer_to, after_call, received_by, opens_none};
ghost use Rattle.world.specs.Acts.{IsOldest};
ghost use Rattle.world.specs.Refusing.{refusal_in, sending_refusal, sent_by, oldest_in, delivery_refusal, delivered, answered, IsEvent};

use crate::errors::EventError;
use crate::nodes::Node;
use book::{Call, Step, call_of};
use channel::Message;
use std::collections::VecDeque;
use updates::OwnUpdate;

// Appends a message, if there is one; the queue has room for it.
fn push_message(inbox: &mut VecDeque<Message>, message: Option<Message>)
    requires { deque_len inbox.old < deque_capacity inbox.old }
    ensures { inbox.new.items ≡ inbox.old.items ++ cons_option message [] }
{
    if let Some(message) = message {
        inbox.push_back(message).unwrap();
    }
}

// Makes a call of a side's book, and appends what it sends to the messages on their way to the peer.
fn send(me: &mut Node, inbox: &mut VecDeque<Message>, call: Call) -> Result<(), EventError>
    requires { opens_none call ≡ true }
    ensures me { IsEvent (refusal_in (answer_to me.old call)) result me.old
        (after_call call me.old) me.new }
    ensures inbox { let answer = answer_to me.old call in
        IsEvent (refusal_in answer) result inbox.old.items
        (inbox.old.items ++ messages_in answer) inbox.new.items }
{
    inbox.reserve(1)?;
    let message = me.answer(call)?;
    push_message(inbox, message);
    Ok(())
}

// Makes a call of a side's book in a channel, and puts what it sends on its way to the peer.
fn exchange(me: &mut Node, peer: &mut Node, channel: u64, call: Call) -> Result<(), EventError>
    requires { opens_none call ≡ true }
    ensures me { IsEvent (sending_refusal channel call me.old peer.old) result me.old
        (after_call call me.old) me.new }
    ensures peer { IsEvent (sending_refusal channel call me.old peer.old) result peer.old
        (sent_by channel call me.old peer.old) peer.new }
{
    let index = channel as usize;
    if index >= peer.lines.len() {
        return Err(EventError::NoSuchChannel);
    }
    let line = &mut peer.lines[index];
    send(me, &mut line.inbox, call)
}

/// Makes an update of a side, and puts its message on its way to the peer. Refused with `NoSuchChannel`, else as the book refuses. A refusal leaves both sides as they
/// were.
pub(crate) fn update(
    me: &mut Node,
    peer: &mut Node,
    channel: u64,
    update: OwnUpdate,
) -> Result<(), EventError>
    ensures me { let call = Stepping channel (Step.Own update) in
        IsEvent (sending_refusal channel call me.old peer.old) result me.old
        (after_call call me.old) me.new }
    ensures peer { let call = Stepping channel (Step.Own update) in
        IsEvent (sending_refusal channel call me.old peer.old) result peer.old
        (sent_by channel call me.old peer.old) peer.new }
{
    let step = Step::Own(update);
    exchange(me, peer, channel, Call::Step { channel, step })
}

/// Signs a side's peer's next commitment, and puts the message on its way to the peer. Refused with `NoSuchChannel`, else as the book refuses. A refusal leaves both
/// sides as they were.
pub(crate) fn sign(me: &mut Node, peer: &mut Node, channel: u64) -> Result<(), EventError>
    ensures me { let call = Signing channel in
        IsEvent (sending_refusal channel call me.old peer.old) result me.old
        (after_call call me.old) me.new }
    ensures peer { let call = Signing channel in
        IsEvent (sending_refusal channel call me.old peer.old) result peer.old
        (sent_by channel call me.old peer.old) peer.new }
{
    exchange(me, peer, channel, Call::Sign { channel })
}

// The call by which a side takes its oldest message. Refused with `NoSuchChannel`, `NoMessage`.
fn oldest(me: &Node, channel: u64) -> Result<Call, EventError>
    ensures { IsOldest channel (oldest_in (slice_get me.now.lines channel)) result }
{
    let index = channel as usize;
    if index >= me.lines.len() {
        return Err(EventError::NoSuchChannel);
    }
    let line = &me.lines[index];
    match line.inbox.front() {
        Some(message) => Ok(call_of(channel, message)?),
        None => Err(EventError::NoMessage),
    }
}

// Removes the oldest message.
fn pop_message(inbox: &mut VecDeque<Message>)
    ensures { inbox.new.items ≡ drop 1 inbox.old.items }
{
    let _came = inbox.pop_front();
}

// Removes the oldest message on its way to a side in a channel.
fn take_off(me: &mut Node, channel: u64)
    ensures { me.new ≡ received_by channel me.old }
{
    let index = channel as usize;
    if index < me.lines.len() {
        let line = &mut me.lines[index];
        pop_message(&mut line.inbox);
    }
}

/// Delivers a side's oldest message, and puts the answer on its way to the peer. Refused, in this order, with `NoSuchChannel` and `NoMessage`, else as the book
/// refuses. A refusal leaves both sides as they were.
pub(crate) fn deliver(me: &mut Node, peer: &mut Node, channel: u64) -> Result<(), EventError>
    ensures me { let message = oldest_in (slice_get me.old.lines channel) in
        IsEvent (delivery_refusal channel message me.old peer.old) result me.old
        (delivered channel message me.old) me.new }
    ensures peer { let message = oldest_in (slice_get me.old.lines channel) in
        IsEvent (delivery_refusal channel message me.old peer.old) result peer.old
        (answered channel message me.old peer.old) peer.new }
{
    let call = oldest(me, channel)?;
    exchange(me, peer, channel, call)?;
    take_off(me, channel);
    Ok(())
}
