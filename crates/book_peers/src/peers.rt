//! Two nodes, and what they do.

use crate::nodes::Node;
use crate::openings::open_side;
use anyhow::Result;
use book::errors::{KeepError, SignError, StepError};
use channel::Message;
use digest::sha256;
use std::alloc::Global;
use terms::Side;
use updates::OwnUpdate;

/// The preimage of every HTLC.
pub const PREIMAGE: [u8; 32] = [0; 32];

/// What a node does in a channel.
#[derive(Clone, Copy, Debug, Drop)]
pub enum Act {
    Update(OwnUpdate),
    Sign,
    /// Receives the oldest message.
    Deliver,
    /// Receives a revocation with a secret of zeros.
    Zeros,
    /// Keeps the penalties of the peer's commitment of this number.
    Keep(u64),
    /// Releases them.
    Release(u64),
    Close,
}

/// What an act led to.
#[derive(Clone, Copy, Debug, Drop)]
pub enum Reply {
    Done,
    NoMessage,
    NotUpdated(StepError),
    NotSigned(SignError),
    NotKept(KeepError),
}

/// Two nodes with the same channels.
#[derive(Drop)]
pub struct Peers {
    pub a: Node,
    pub b: Node,
}

/// An update that offers an HTLC.
pub fn offer(amount_msat: u64, expiry_height: u32) -> OwnUpdate {
    OwnUpdate::Offer {
        amount_msat,
        hash: sha256(&PREIMAGE),
        expiry_height,
    }
}

// Sends a message to the peer.
fn send(peer: &mut Node, channel: usize, message: Message) -> Result<Reply> {
    peer.queue(channel, message)?;
    Ok(Reply::Done)
}

fn update(node: &mut Node, peer: &mut Node, channel: usize, own: OwnUpdate) -> Result<Reply> {
    match node.update(channel, own)? {
        Ok(message) => send(peer, channel, message),
        Err(error) => Ok(Reply::NotUpdated(error)),
    }
}

fn sign(node: &mut Node, peer: &mut Node, channel: usize) -> Result<Reply> {
    match node.sign(channel)? {
        Ok(message) => send(peer, channel, message),
        Err(error) => Ok(Reply::NotSigned(error)),
    }
}

fn receive(node: &mut Node, peer: &mut Node, channel: usize, message: Message) -> Result<Reply> {
    match node.receive(channel, message)? {
        Some(answer) => send(peer, channel, answer),
        None => Ok(Reply::Done),
    }
}

fn deliver(node: &mut Node, peer: &mut Node, channel: usize) -> Result<Reply> {
    match node.oldest(channel)? {
        Some(message) => receive(node, peer, channel, message),
        None => Ok(Reply::NoMessage),
    }
}

fn revoke_zeros(node: &mut Node, channel: usize) -> Result<Reply> {
    match node.revoke_zeros(channel)? {
        Ok(_) => Ok(Reply::Done),
        Err(error) => Ok(Reply::NotUpdated(error)),
    }
}

fn keep(node: &mut Node, channel: usize, number: u64) -> Result<Reply> {
    match node.keep(channel, number)? {
        Ok(()) => Ok(Reply::Done),
        Err(error) => Ok(Reply::NotKept(error)),
    }
}

fn release(node: &mut Node, channel: usize, number: u64) -> Result<Reply> {
    node.release(channel, number)?;
    Ok(Reply::Done)
}

fn close(node: &mut Node, channel: usize) -> Result<Reply> {
    node.close(channel)?;
    Ok(Reply::Done)
}

// A node acts in a channel with its peer.
fn play(node: &mut Node, peer: &mut Node, channel: usize, what: Act) -> Result<Reply> {
    match what {
        Act::Update(own) => update(node, peer, channel, own),
        Act::Sign => sign(node, peer, channel),
        Act::Deliver => deliver(node, peer, channel),
        Act::Zeros => revoke_zeros(node, channel),
        Act::Keep(number) => keep(node, channel, number),
        Act::Release(number) => release(node, channel, number),
        Act::Close => close(node, channel),
    }
}

impl Peers {
    /// Two nodes without channels.
    pub fn new(alloc: Global) -> Peers {
        Peers {
            a: Node::new(alloc),
            b: Node::new(alloc),
        }
    }

    /// Opens the channel of a number.
    fn open_one(&mut self, alloc: Global, number: u32) -> Result<()> {
        self.a.open(open_side(alloc, number, Side::A)?)?;
        self.b.open(open_side(alloc, number, Side::B)?)
    }

    /// Opens `channels` channels of 100,000 satoshis. A opens each of them, and has 80,000.
    pub fn open(&mut self, alloc: Global, channels: u32) -> Result<()> {
        for number in 0..channels {
            self.open_one(alloc, number)?;
        }
        Ok(())
    }

    /// The node of a side.
    pub fn node(&self, side: Side) -> &Node {
        match side {
            Side::A => &self.a,
            Side::B => &self.b,
        }
    }

    /// A side acts in a channel.
    pub fn act(&mut self, side: Side, channel: usize, what: Act) -> Result<Reply> {
        match side {
            Side::A => play(&mut self.a, &mut self.b, channel, what),
            Side::B => play(&mut self.b, &mut self.a, channel, what),
        }
    }
}
