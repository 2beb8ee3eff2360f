//! What a channel's thread does for one side.

ghost use Rattle.std.specs.Prelude.{◌≡◌, ◌++◌, true, false, IfOk, OnOk, option_map, slice_get};
ghost use Rattle.book.specs.Replies.{is_accepted};
ghost use Rattle.book.specs.Dispatch.{reply_form};
ghost use Rattle.book.specs.declared.calls.Call.TheVariants.{Sign as Signing};
ghost use Rattle.desk.specs.Seats.{IsSeatOf, IsSameSeat};
ghost use Rattle.jobs.specs.Ends.{PutsWith, hand_of};
ghost use Rattle.node.specs.declared.work.Job.TheVariants.{Keep};
ghost use Rattle.book.specs.Acts.{call_of, messages_in, ran_out};
ghost use Rattle.running.specs.Threads.{IsEndpoint};
ghost use Rattle.running.specs.Acting.{IsReply, IsSent, IsReceived, IsDelivered, IsActed, PutsIf, revoked_in};

use crate::endpoints::{Endpoint, put};
use crate::shared::SideState;
use book::errors::SignError;
use book::{Call, Reply, Step, call_of, message_of};
use channel::Message;
use desk::Seat;
use jobs::{JobSender, Pass};
use node::Job;
use scenario::Event;
use std::alloc::AllocError;
use std::collections::VecDeque;
use std::sync::Wait;

// Sends the message of an accepted reply. Returns whether the reply is accepted; the only error is that memory ran out, as the reply may say itself.
#[tactic(auto, using(crate::proofs::Replying::silent, book::proofs::Answered::in_memory))]
fn send_message(reply: Reply, inbox: &mut VecDeque<Message>) -> Result<bool, AllocError>
    ensures done { IfOk result (λ done. done ≡ is_accepted (reply_form reply)) }
    ensures sent { OnOk result (inbox.new.items
        ≡ inbox.old.items ++ messages_in (reply_form reply)) }
    ensures own { IfOk result (λ _. ran_out (reply_form reply) ≡ false) }
{
    match message_of(reply) {
        Ok(Some(message)) => {
            inbox.push_back(message)?;
            Ok(true)
        }
        Ok(None) => Ok(true),
        Err(refused) => {
            let wants = refused.is_out_of_memory();
            drop(refused);
            if wants { Err(AllocError) } else { Ok(false) }
        }
    }
}

// Whether a signature is refused since penalties are missing.
fn misses_penalties(reply: &Reply) -> bool
    ensures { result ≡ true → is_accepted (reply_form reply.now) ≡ false }
{
    match reply {
        Reply::Signed(Err(SignError::PenaltiesMissing(_))) => true,
        _ => false,
    }
}

// The number of the commitment that was revoked.
fn revoked_by(reply: &Reply) -> Option<u64>
    ensures { result ≡ revoked_in (reply_form reply.now) }
{
    match reply {
        Reply::Revoked(Ok(number)) => Some(*number),
        Reply::Opened(_) | Reply::Stepped(Ok(_)) | Reply::Stepped(Err(_)) | Reply::Signed(_) =>
            None,
        Reply::Revoked(Err(_)) | Reply::Kept(_) | Reply::Released(_) | Reply::Closed(_) => None,
    }
}

// Makes a call. Its message goes to the peer.
#[tactic(auto, using(crate::proofs::Replying::is_sent))]
fn send<R: Wait>(
    rt: &R,
    side: &SideState,
    seat: &mut Seat,
    inbox: &mut VecDeque<Message>,
    call: Call,
) -> Result<bool, AllocError>
    requires { IsSeatOf side.now.desk seat.old }
    ensures seat { IsSameSeat side.now.desk seat.old seat.new }
    ensures sent { IfOk result (IsSent call seat.old seat.new inbox.old.items inbox.new.items) }
{
    let reply = side.desk.call(rt, seat, call);
    send_message(reply, inbox)
}

// Asks for a signature. If penalties are missing, it waits for the next job, as long as one is left that may keep them, and asks again.
#[tactic(auto, using(crate::proofs::Replying::replied_since, crate::proofs::Replying::refused, crate::proofs::Same::same_calls))]
fn ask_signature<R: Wait>(rt: &R, side: &SideState, seat: &mut Seat, channel: u64) -> Reply
    requires { IsSeatOf side.now.desk seat.old }
    ensures seat { IsSameSeat side.now.desk seat.old seat.new }
    ensures reply { IsReply (Signing channel) seat.old seat.new (reply_form result) }
{
    let mut done = side.progress.count_done(rt);
    for _ in rt.forever() {
        let reply = side.desk.call(rt, seat, Call::Sign { channel });
        if !misses_penalties(&reply) {
            return reply;
        }
        match side.progress.wait_for_more(rt, done) {
            Some(more) => {
                drop(reply);
                done = more;
            }
            None => return reply,
        }
    }
    unreachable!()
}

// Signs the peer's next commitment. The message goes to the peer.
#[tactic(auto, using(crate::proofs::Replying::is_sent))]
fn sign<R: Wait>(
    rt: &R,
    side: &SideState,
    seat: &mut Seat,
    inbox: &mut VecDeque<Message>,
    channel: u64,
) -> Result<bool, AllocError>
    requires { IsSeatOf side.now.desk seat.old }
    ensures seat { IsSameSeat side.now.desk seat.old seat.new }
    ensures sent { IfOk result (IsSent (Signing channel) seat.old seat.new inbox.old.items
        inbox.new.items) }
{
    let reply = ask_signature(rt, side, seat, channel);
    send_message(reply, inbox)
}

// Puts the job to keep the penalties of the peer's commitment that was revoked, if there is one.
fn put_keep<R: Wait>(
    rt: &R,
    side: &SideState,
    sender: &JobSender<Job>,
    pass: &mut Pass<Job>,
    channel: u64,
    revoked: Option<u64>,
)
    requires { PutsWith sender.now pass.old }
    ensures pass { PutsWith sender.now pass.new }
    ensures job { PutsIf (option_map (Keep channel) revoked) (hand_of pass.old)
        (hand_of pass.new) }
{
    if let Some(number) = revoked {
        let job = Job::Keep { channel, number };
        put(rt, &side.progress, sender, pass, job);
    }
}

// Makes the call of the oldest message. Its answer goes to the peer. A refusal leaves the message where it is.
#[tactic(auto, using(crate::proofs::Replying::unrevoked, crate::proofs::Replying::own_reply))]
fn receive<R: Wait>(
    rt: &R,
    side: &SideState,
    me: &mut Endpoint,
    inbox: &mut VecDeque<Message>,
    channel: u64,
    call: Call,
) -> Result<bool, AllocError>
    requires { IsEndpoint side.now me.old }
    ensures endpoint { IsEndpoint side.now me.new }
    ensures received { IfOk result
        (IsReceived channel call me.old me.new inbox.old.items inbox.new.items) }
{
    let reply = side.desk.call(rt, &mut me.seat, call);
    let revoked = revoked_by(&reply);
    let is_done = send_message(reply, inbox)?;
    if !is_done {
        return Ok(false);
    }
    drop(me.inbox.pop_front());
    put_keep(rt, side, &me.sender, &mut me.pass, channel, revoked);
    Ok(true)
}

// Receives the oldest message, if there is one.
fn deliver<R: Wait>(
    rt: &R,
    side: &SideState,
    me: &mut Endpoint,
    inbox: &mut VecDeque<Message>,
    channel: u64,
) -> Result<bool, AllocError>
    requires { IsEndpoint side.now me.old }
    ensures endpoint { IsEndpoint side.now me.new }
    ensures delivered { IfOk result (IsDelivered channel (slice_get me.old.inbox.items 0) me.old
        me.new inbox.old.items inbox.new.items) }
{
    let Some(message) = me.inbox.front() else {
        return Ok(false);
    };
    let call = call_of(channel, message)?;
    receive(rt, side, me, inbox, channel, call)
}

/// Does what an event asks of a side in a channel: an update, a signature, a delivery or a close, and nothing for another event. What is sent goes into the peer's inbox. Returns whether it
/// was done and not refused. The only error is that memory ran out.
pub(crate) fn act_for<R: Wait>(
    rt: &R,
    side: &SideState,
    me: &mut Endpoint,
    inbox: &mut VecDeque<Message>,
    channel: u64,
    event: &Event,
) -> Result<bool, AllocError>
    requires { IsEndpoint side.now me.old }
    ensures endpoint { IsEndpoint side.now me.new }
    ensures acted { IfOk result (IsActed channel event.now me.old me.new inbox.old.items
        inbox.new.items) }
{
    match *event {
        Event::Own { update, .. } => {
            let step = Step::Own(update);
            let call = Call::Step { channel, step };
            send(rt, side, &mut me.seat, inbox, call)
        }
        Event::Sign { .. } => sign(rt, side, &mut me.seat, inbox, channel),
        Event::Deliver { .. } => deliver(rt, side, me, inbox, channel),
        Event::Close { .. } => send(rt, side, &mut me.seat, inbox, Call::Close { channel }),
        _ => Ok(false),
    }
}
