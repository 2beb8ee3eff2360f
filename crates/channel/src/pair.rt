//! Two peers with a queue each way.

ghost use Rattle.std.specs.Prelude.{◌≡◌, ◌+◌, ◌<◌, ◌≤◌, [], ◌∷◌, ◌++◌, length, drop, map, OnOk, OnErr, MatchResult};
ghost use Rattle.std.specs.List.{cons_option};
ghost use Rattle.std.specs.VecDeque.{deque_len, deque_capacity};
ghost use Rattle.channel.specs.declared.plays.Action.TheVariants.{Deliver};
ghost use Rattle.channel.specs.declared.plays.Outcome.TheVariants.{Done, Refused};
ghost use Rattle.channel.specs.declared.reestablish.Parcel.TheVariants.{Hello, Sent};
ghost use Rattle.channel.specs.Reestablishing.{forgotten, hello, resends, hello_refusal, is_behind};
ghost use Rattle.channel.specs.Connections.{is_cut};
ghost use Rattle.channel.specs.Playing.{IsTurn};
ghost use Rattle.channel.specs.Tokens.{peer_tokens as tokens_of};

use crate::channel::Channel;
use crate::messages::Message;
use crate::plays::{Action, Outcome, PairStep};
use crate::reestablish::{Again, Parcel, Reestablish};
use std::alloc::{AllocError, Global};
use std::collections::VecDeque;
use std::marker::Model;
use terms::Side;
use updates::ChannelError;

/// The two sides of a channel, with the same terms. Each has a queue of the parcels on their way to it. A contract sees a pair as a `Connection` that two
/// honest peers reach from a new channel by steps and cuts.
#[derive(Drop)]
pub struct Pair {
    a: Channel,
    b: Channel,
    to_a: VecDeque<Parcel>,
    to_b: VecDeque<Parcel>,
}

impl Model for Pair {
    ghost use Rattle.channel.specs.Connections.{Connection};
    ghost use Rattle.channel.specs.Standing.{IsStanding};
    ghost use Rattle.channel.specs.Tokens.{peer_tokens as tokens_of};

    ghost Value = { Connection };

    ghost view = { λ p. record { a = p.a; b = p.b; to_a = p.to_a.items; to_b = p.to_b.items } };

    ghost invariant = { λ p.
        IsStanding tokens_of (record { a = p.a; b = p.b; to_a = p.to_a.items; to_b = p.to_b.items }) };
}

impl Pair {
    ghost use Rattle.std.specs.Prelude.{◌≡◌, [], IfOk, IfErr, OnErr};
    ghost use Rattle.updates.specs.declared.errors.ChannelError.TheVariants.{NoMemory};
    ghost use Rattle.channel.specs.declared.plays.PairStep.TheVariants.{Turn, Cut};
    ghost use Rattle.channel.specs.Peers.{AreOpened};
    ghost use Rattle.channel.specs.Playing.{state_of, IsStep, IsPlay, AreDelivered};
    ghost use Rattle.channel.specs.Standing.{AgreesThroughout};
    ghost use Rattle.channel.specs.Tokens.{peer_tokens as tokens_of};

    /// The two sides of a channel as [`Channel::new`] gave them, of the same terms and each with the other's points for 0 and 1. No message is on its way. It
    /// allocates nothing.
    pub fn new(alloc: Global, a: Channel, b: Channel) -> Pair
        requires { AreOpened a b }
        ensures { result ≡ record { a = a; b = b; to_a = []; to_b = [] } }
    {
        Pair {
            a,
            b,
            to_a: VecDeque::new(alloc),
            to_b: VecDeque::new(alloc),
        }
    }

    /// The channel of a side.
    pub fn channel(&self, side: Side) -> &Channel
        ensures { result.now ≡ state_of side self.now }
    {
        match side {
            Side::A => &self.a,
            Side::B => &self.b,
        }
    }

    /// Plays steps in turn, and returns the outcome of each. A refused step changes nothing, and the next one is played. No delivery is refused unless memory
    /// ran out, nobody is told to be behind, and the two agree at every moment, whatever is cut. The only error is that there is no memory for the outcomes: then no
    /// step is played.
    pub fn play(&mut self, steps: &[PairStep]) -> Result<Vec<Outcome>, ChannelError>
        ensures played { IfOk result (λ outcomes. IsPlay tokens_of self.old steps.now outcomes.items
            self.new) }
        ensures delivered { IfOk result (λ outcomes. AreDelivered steps.now outcomes.items) }
        ensures agreed { AgreesThroughout tokens_of self.old steps.now }
        ensures none { IfErr result (λ e. e ≡ NoMemory) }
        ensures err { OnErr result (self.new ≡ self.old) }
    {
        let alloc = *self.to_a.allocator();
        let mut outcomes = match Vec::with_capacity(alloc, steps.len()) {
            Ok(outcomes) => outcomes,
            Err(_) => return Err(ChannelError::NoMemory),
        };
        for next in steps {
            let outcome = self.step(next);
            outcomes.push(outcome).unwrap();
        }
        Ok(outcomes)
    }

    // Plays one step.
    fn step(&mut self, step: &PairStep) -> Outcome
        ensures { IsStep tokens_of self.old step.now result self.new }
    {
        match *step {
            PairStep::Turn { side, action } => self.act(side, &action),
            PairStep::Cut => self.cut(),
        }
    }

    // Plays a turn of one side.
    fn act(&mut self, side: Side, action: &Action) -> Outcome
        ensures { IsStep tokens_of self.old (Turn side action.now) result self.new }
    {
        match side {
            Side::A => turn(&mut self.a, &mut self.to_a, &mut self.to_b, action),
            Side::B => turn(&mut self.b, &mut self.to_b, &mut self.to_a, action),
        }
    }

    // Cuts the connection. Room for the hellos is reserved before anything changes.
    fn cut(&mut self) -> Outcome
        ensures { IsStep tokens_of self.old Cut result self.new }
    {
        if self.to_a.reserve(1).is_err() {
            return Outcome::Refused(ChannelError::NoMemory);
        }
        if self.to_b.reserve(1).is_err() {
            return Outcome::Refused(ChannelError::NoMemory);
        }
        let (from_a, from_b) = (self.a.hello(), self.b.hello());
        self.a.drop_uncommitted();
        self.b.drop_uncommitted();
        say(&mut self.to_a, from_b);
        say(&mut self.to_b, from_a);
        Outcome::Done
    }
}

// What was on its way is lost, and a hello comes in its place.
fn say(queue: &mut VecDeque<Parcel>, hello: Reestablish)
    requires { deque_len queue.old < deque_capacity queue.old }
    ensures { queue.new.items ≡ Hello hello ∷ [] }
{
    queue.clear();
    queue.push_back(Parcel::Hello(hello)).unwrap();
}

// A side's turn, with the queue to it and the one to its peer. Room for a message that it sends is reserved before anything changes.
fn turn(
    me: &mut Channel,
    to_me: &mut VecDeque<Parcel>,
    to_peer: &mut VecDeque<Parcel>,
    action: &Action,
) -> Outcome
    ensures { IsTurn tokens_of action.now me.old to_me.old.items to_peer.old.items result me.new
        to_me.new.items to_peer.new.items }
{
    if to_peer.reserve(1).is_err() {
        return Outcome::Refused(ChannelError::NoMemory);
    }
    match *action {
        Action::Own(update) => {
            if is_cut(to_me) {
                return Outcome::NotConnected;
            }
            send(to_peer, me.make(&update))
        }
        Action::Sign => {
            if is_cut(to_me) {
                return Outcome::NotConnected;
            }
            send(to_peer, me.signed())
        }
        Action::Deliver => deliver(me, to_me, to_peer),
    }
}

// Whether the peer's hello has not come yet.
fn is_cut(to_me: &VecDeque<Parcel>) -> bool
    ensures { result ≡ is_cut to_me.now.items }
{
    match to_me.front() {
        Some(Parcel::Hello(_)) => true,
        _ => false,
    }
}

// Sends the message of a call of one's own.
fn send(to_peer: &mut VecDeque<Parcel>, sent: Result<Message, ChannelError>) -> Outcome
    requires { deque_len to_peer.old < deque_capacity to_peer.old }
    ensures { MatchResult sent (λ m. (result ≡ Done)
        × (to_peer.new.items ≡ to_peer.old.items ++ Sent m ∷ []))
        (λ e. (result ≡ Refused e) × (to_peer.new.items ≡ to_peer.old.items)) }
{
    match sent {
        Ok(message) => {
            to_peer.push_back(Parcel::Sent(message)).unwrap();
            Outcome::Done
        }
        Err(refusal) => Outcome::Refused(refusal),
    }
}

// Receives the oldest parcel, and sends its answer.
fn deliver(
    me: &mut Channel,
    to_me: &mut VecDeque<Parcel>,
    to_peer: &mut VecDeque<Parcel>,
) -> Outcome
    requires { deque_len to_peer.old < deque_capacity to_peer.old }
    ensures { IsTurn tokens_of Deliver me.old to_me.old.items to_peer.old.items result me.new
        to_me.new.items to_peer.new.items }
{
    match to_me.front() {
        Some(Parcel::Sent(message)) => match me.receive(message) {
            Ok(answer) => {
                let _received = to_me.pop_front();
                send_answer(to_peer, answer);
                Outcome::Done
            }
            Err(kept) => Outcome::Refused(kept),
        },
        Some(Parcel::Hello(hello)) => match me.resend(hello) {
            Ok(Again::Send(messages)) => match resume(to_me, to_peer, messages) {
                Ok(()) => Outcome::Done,
                Err(_) => Outcome::Refused(ChannelError::NoMemory),
            },
            Ok(Again::Behind) => Outcome::Behind,
            Err(refusal) => Outcome::Refused(refusal),
        },
        None => Outcome::NoMessage,
    }
}

// Sends the answer to a message, if there is one.
fn send_answer(to_peer: &mut VecDeque<Parcel>, answer: Option<Message>)
    requires { deque_len to_peer.old < deque_capacity to_peer.old }
    ensures { to_peer.new.items ≡ to_peer.old.items ++ map Sent (cons_option answer []) }
{
    if let Some(answer) = answer {
        to_peer.push_back(Parcel::Sent(answer)).unwrap();
    }
}

// Sends messages, for which there is room.
fn send_all(to_peer: &mut VecDeque<Parcel>, messages: Vec<Message>)
    requires { deque_len to_peer.old + length messages.items ≤ deque_capacity to_peer.old }
    ensures { to_peer.new.items ≡ to_peer.old.items ++ map Sent messages.items }
{
    for message in messages {
        to_peer.push_back(Parcel::Sent(message)).unwrap();
    }
}

// Takes the hello off, and sends what the peer lacks. The only error is that memory ran out, which leaves both queues as they were.
fn resume(
    to_me: &mut VecDeque<Parcel>,
    to_peer: &mut VecDeque<Parcel>,
    messages: Vec<Message>,
) -> Result<(), AllocError>
    ensures taken { OnOk result (to_me.new.items ≡ drop 1 to_me.old.items) }
    ensures sent { OnOk result (to_peer.new.items ≡ to_peer.old.items ++ map Sent messages.items) }
    ensures taken_err { OnErr result (to_me.new.items ≡ to_me.old.items) }
    ensures sent_err { OnErr result (to_peer.new.items ≡ to_peer.old.items) }
{
    to_peer.reserve(messages.len())?;
    let _hello = to_me.pop_front();
    send_all(to_peer, messages);
    Ok(())
}
