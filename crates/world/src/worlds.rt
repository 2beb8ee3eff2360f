//! The world of two sides.

use crate::beginning::{begin_all, first_bad_terms};
use crate::errors::WorldError;
use crate::laws::{steps_keep, worlds_hold};
use crate::outcomes::Outcome;
use crate::parts::Parts;
use crate::taken_apart::BooksAndChain;
use book::Book;
use chain::Index;
use channel::Message;
use scenario::{Event, MAX_CHANNELS, Seeds};
use side::DueClaim;
use std::alloc::{AllocError, Global};
use std::collections::VecDeque;
use std::marker::Model;
use std::mem;
use terms::{ProposedTerms, Side};
use tx::Tx;

/// The world of two sides: their books and watches, the messages on their way, and the chain with its pool.
#[derive(Drop)]
pub struct World {
    parts: Parts,
}

impl Model for World {
    ghost use Rattle.world.specs.Worlds.{World as WorldParts};
    ghost use Rattle.world.specs.Theorem.{IsWorld};

    ghost Value = { WorldParts };

    ghost view = { λ w. w.parts };

    ghost invariant = { λ w. IsWorld w.parts };
}

impl World {
    ghost use Rattle.std.specs.Prelude.{◌≡◌, true, None, MatchResult, option_map, slice_get};
    ghost use Rattle.chain.specs.Checked.{is_checked};
    ghost use Rattle.world.specs.Worlds.{node_of};
    ghost use Rattle.world.specs.Beginning.{beginning_refusal, IsBeginning, IsBeginningRefusal};
    ghost use Rattle.world.specs.Steps.{WorldSteps};
    ghost use Rattle.world.specs.Theorem.{HoldsAt, IsPlay};

    /// The world in which the first block grants the funding outputs of these channels, and both sides opened them from seat 0, with the peer's token on commitment 0. `OverLimit` for more
    /// than 8 channels, then `BadTerms` with the first channel on whose terms the two sides can't agree.
    pub fn new(alloc: Global, seeds: &Seeds, terms: &[ProposedTerms]) -> Result<World, WorldError>
        ensures { let first = beginning_refusal terms.now in
            MatchResult result (λ w. (first ≡ None) × IsBeginning seeds.now terms.now w)
            (IsBeginningRefusal first) }
    {
        if terms.len() > MAX_CHANNELS {
            return Err(WorldError::OverLimit);
        }
        match first_bad_terms(terms) {
            Some(channel) => return Err(WorldError::BadTerms(channel)),
            None => {}
        }
        let parts = begin_all(alloc, seeds, terms)?;
        Ok(World { parts })
    }

    /// The book of a side.
    pub fn book(&self, side: Side) -> &Book
        ensures { result.now ≡ (node_of side self.now).history }
    {
        &self.parts.node(side).book
    }

    /// The chain. Each transaction on it passed the tests of `connect` when it was added, so the laws of `safety` on such chains hold of it.
    pub fn chain(&self) -> &Index
        ensures value { result.now ≡ self.now.chain }
        ensures checked { is_checked result.now.blocks ≡ true }
    {
        let chain = &self.parts.chain;
        chain.passed_tests();
        chain
    }

    /// The transactions that wait for a block, in order.
    pub fn pool(&self) -> &[Tx]
        ensures { result.now ≡ self.now.pool }
    {
        &self.parts.pool
    }

    /// The messages on their way to a side in a channel, the oldest first; `None` where there is no such channel.
    pub fn inbox(&self, side: Side, channel: u64) -> Option<&VecDeque<Message>>
        ensures { option_map (λ inbox. inbox.now.items) result
            ≡ option_map (λ line. line.inbox) (slice_get (node_of side self.now).lines channel) }
    {
        match self.parts.node(side).lines.get(channel as usize) {
            Some(line) => Some(&line.inbox),
            None => None,
        }
    }

    /// The jobs of a side: claims that fell due and were not taken yet, the oldest first.
    pub fn jobs(&self, side: Side) -> &VecDeque<DueClaim>
        ensures { result.now.items ≡ (node_of side self.now).jobs }
    {
        &self.parts.node(side).jobs
    }

    /// The claims that a side took and did not release yet, the oldest first.
    pub fn taken(&self, side: Side) -> &VecDeque<DueClaim>
        ensures { result.now.items ≡ (node_of side self.now).taken }
    {
        &self.parts.node(side).taken
    }

    /// The books of both sides, and the chain. All else is dropped.
    pub fn into_parts(self) -> BooksAndChain
        ensures a { result.a ≡ self.a.history }
        ensures b { result.b ≡ self.b.history }
        ensures chain { result.chain ≡ self.chain }
    {
        let World { parts } = self;
        parts.into_books_and_chain()
    }

    /// Lets the world go without freeing what it holds. For a program that ends now, which frees all at once.
    pub fn leak(self) {
        mem::forget(self);
    }

    // Tells the proof the Enforcement theorem at this moment.
    fn holds(&self)
        ensures { HoldsAt self.now }
    {
        // The proof learns the invariant where a field is used.
        let _ = &self.parts;
        worlds_hold();
    }

    // Plays one event. A refusal leaves the world as it was.
    fn step(&mut self, event: &Event) -> Outcome
        ensures { WorldSteps self.old event.now self.new result }
    {
        // By this law the proof knows that the event keeps the world's invariant.
        steps_keep();
        let outcome = self.parts.step(event);
        self.parts.hold_both();
        outcome
    }

    /// Plays events in turn, and returns the outcome of each. A refused event leaves the world as it was, and the next one is played. The only error is that there was no memory for the
    /// outcomes: then no event was played.
    pub fn play(&mut self, events: &[Event]) -> Result<Vec<Outcome>, AllocError>
        ensures { MatchResult result
            (λ outcomes. IsPlay self.old events.now outcomes.items self.new)
            (λ _. self.new ≡ self.old) }
    {
        let mut outcomes = Vec::with_capacity(self.parts.alloc, events.len())?;
        self.holds();
        for event in events {
            let outcome = self.step(event);
            self.holds();
            outcomes.push(outcome).unwrap();
        }
        Ok(outcomes)
    }
}
