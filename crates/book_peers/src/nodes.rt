//! A node: its book, and for each channel of the book a second one that takes the same steps.

use crate::openings::Opened;
use crate::releases::batch_with;
use anyhow::{Context, Result};
use book::errors::{KeepError, SignError, StepError};
use book::{Batch, Book, Step};
use channel::{Channel, Message};
use claim::Claim;
use forms::patterns;
use lists::List;
use penalty::{RevokedState, penalties};
use std::alloc::Global;
use std::collections::VecDeque;
use updates::{OwnUpdate, Revocation};

/// The seat of all calls.
pub const SEAT: u32 = 0;

/// The second channel of a channel in the book, and the
/// messages that came for it and were not received yet.
#[derive(Drop)]
struct Line {
    channel: Channel,
    inbox: VecDeque<Message>,
}

/// A node of one book.
#[derive(Drop)]
pub struct Node {
    alloc: Global,
    pub book: Book,
    lines: Vec<Line>,
}

// The state of the peer's commitment of a number, which the secret revokes.
fn revoked_state(channel: &Channel, number: u64, secret: [u8; 32]) -> Result<RevokedState> {
    let commitment = channel.peers_commitment(number).context("no commitment")?;
    let view = commitment.view.copy()?;
    let owner = channel.side().other();
    Ok(RevokedState::new(*channel.terms(), view, owner, number, secret)?)
}

fn claims_on(alloc: Global, state: &RevokedState) -> Result<List<Claim>> {
    let patterns = patterns(alloc)?;
    Ok(List::from_vec(penalties(alloc, &patterns, state)?.into_claims()))
}

fn claims_by(
    alloc: Global,
    channel: &Channel,
    number: u64,
    secret: [u8; 32],
) -> Result<List<Claim>> {
    let state = revoked_state(channel, number, secret)?;
    claims_on(alloc, &state)
}

// The penalties of the peer's commitment of a number; no claims where it is not revoked.
fn penalties_in(alloc: Global, channel: &Channel, number: u64) -> Result<List<Claim>> {
    match channel.peers_secret(number) {
        Some(secret) => claims_by(alloc, channel, number, secret),
        None => Ok(List::new(alloc)),
    }
}

// The book takes a step.
fn take_step(book: &mut Book, channel: u64, step: Step) -> Result<(), StepError> {
    let _answer = book.step(SEAT, channel, step)?;
    Ok(())
}

// The book takes a revocation.
fn take_revocation(book: &mut Book, channel: u64, revocation: Revocation) -> Result<(), StepError> {
    let _number = book.revoke(SEAT, channel, revocation)?;
    Ok(())
}

// The book receives a message.
fn receive(book: &mut Book, channel: u64, message: Message) -> Result<(), StepError> {
    match message {
        Message::Step(step) => take_step(book, channel, Step::Peer(step)),
        Message::RevokeAndAck(revocation) => take_revocation(book, channel, revocation),
    }
}

impl Node {
    /// A node with an empty book.
    pub fn new(alloc: Global) -> Node {
        Node {
            alloc,
            book: Book::new(alloc),
            lines: Vec::new(alloc),
        }
    }

    fn add_line(&mut self, channel: Channel) -> Result<()> {
        let inbox = VecDeque::new(self.alloc);
        self.lines.push(Line { channel, inbox })?;
        Ok(())
    }

    /// Opens a channel.
    pub fn open(&mut self, opened: Opened) -> Result<()> {
        let Opened { opening, channel } = opened;
        self.add_line(channel)?;
        self.book.open(SEAT, opening)?;
        Ok(())
    }

    fn line(&mut self, index: usize) -> Result<&mut Line> {
        self.lines.get_mut(index).context("no such channel")
    }

    /// Queues a message from the peer.
    pub fn queue(&mut self, index: usize, message: Message) -> Result<()> {
        self.line(index)?.inbox.push_back(message)?;
        Ok(())
    }

    // Makes an update in the second channel.
    fn update_along(&mut self, index: usize, own: &OwnUpdate) -> Result<Message> {
        Ok(self.line(index)?.channel.make(own)?)
    }

    /// Makes an update, and returns the message for the peer.
    pub fn update(&mut self, index: usize, own: OwnUpdate) -> Result<Result<Message, StepError>> {
        match self.book.step(SEAT, index as u64, Step::Own(own)) {
            Ok(_) => Ok(Ok(self.update_along(index, &own)?)),
            Err(error) => Ok(Err(error)),
        }
    }

    /// Signs, and returns the message for the peer.
    pub fn sign(&mut self, index: usize) -> Result<Result<Message, SignError>> {
        match self.book.sign(SEAT, index as u64) {
            Ok(_) => Ok(Ok(self.sign_along(index)?)),
            Err(error) => Ok(Err(error)),
        }
    }

    /// Signs in the second channel, and returns the message for the peer.
    pub fn sign_along(&mut self, index: usize) -> Result<Message> {
        Ok(self.line(index)?.channel.signed()?)
    }

    /// The penalties of the peer's commitment of a number; no claims where it is not revoked.
    pub fn penalties(&mut self, index: usize, number: u64) -> Result<List<Claim>> {
        penalties_in(self.alloc, &self.line(index)?.channel, number)
    }

    /// Removes the oldest message.
    pub fn oldest(&mut self, index: usize) -> Result<Option<Message>> {
        Ok(self.line(index)?.inbox.pop_front())
    }

    // Receives a message in the second channel.
    fn receive_along(&mut self, index: usize, message: &Message) -> Result<Option<Message>> {
        Ok(self.line(index)?.channel.receive(message)?)
    }

    /// Receives a message, and returns the answer for the peer, if there is one.
    pub fn receive(&mut self, index: usize, message: Message) -> Result<Option<Message>> {
        let answer = self.receive_along(index, &message)?;
        receive(&mut self.book, index as u64, message)?;
        Ok(answer)
    }

    /// Receives a revocation with a secret of zeros.
    pub fn revoke_zeros(&mut self, index: usize) -> Result<Result<u64, StepError>> {
        let point = self.line(index)?.channel.terms().a.bases.funding;
        let revocation = Revocation {
            secret: [0; 32],
            next_point: point,
        };
        Ok(self.book.revoke(SEAT, index as u64, revocation))
    }

    /// Keeps the penalties of the peer's commitment of a number.
    pub fn keep(&mut self, index: usize, number: u64) -> Result<Result<(), KeepError>> {
        let claims = self.penalties(index, number)?;
        Ok(self.book.keep(SEAT, index as u64, number, claims))
    }

    // The penalties of the peer's commitment of a number, as a batch.
    fn batch(&mut self, index: usize, number: u64) -> Result<Batch> {
        let claims = self.penalties(index, number)?;
        batch_with(self.alloc, claims)
    }

    /// Closes a channel, and returns the number of this node's newest commitment.
    pub fn close(&mut self, index: usize) -> Result<u64> {
        Ok(self.book.close(SEAT, index as u64)?)
    }

    /// Releases the penalties of the peer's commitment of a number.
    pub fn release(&mut self, index: usize, number: u64) -> Result<()> {
        let batch = self.batch(index, number)?;
        self.book.release(SEAT, index as u64, batch)?;
        Ok(())
    }
}
