//! The parts of a world, and what each event does to them.

ghost use Rattle.std.specs.Prelude.{◌≡◌, None, MatchResult};
ghost use Rattle.world.specs.Refusing.{IsRefusal};
ghost use Rattle.world.specs.Worlds.{channel_of};
ghost use Rattle.world.specs.Publishing.{closing_in, refusal_by, IsClosedTo};
ghost use Rattle.world.specs.Releasing.{release_refusal, IsReleasedTo};
ghost use Rattle.world.specs.Steps.{done_by, looked_by};

use crate::errors::EventError;
use crate::nodes::Node;
use crate::outcomes::Outcome;
use crate::taken_apart::BooksAndChain;
use crate::{delivering, keeping, looking, publishing, releasing};
use book::Call;
use chain::{Coins, Index};
use mempool::{Reorganised, mine, reorganise};
use scenario::Event;
use std::alloc::Global;
use std::marker::Model;
use terms::Side;
use tx::Tx;
use updates::OwnUpdate;

/// The two sides, and the chain with its pool.
#[derive(Drop)]
pub(crate) struct Parts {
    pub(crate) alloc: Global,
    pub(crate) a: Node,
    pub(crate) b: Node,
    /// Whether an empty block gives the first side nothing.
    pub(crate) quiet_a: bool,
    /// Whether it gives the second side nothing.
    pub(crate) quiet_b: bool,
    pub(crate) chain: Index,
    /// The transactions that wait for a block, in order.
    pub(crate) pool: Vec<Tx>,
    /// All fillings that were released so far, in order.
    pub(crate) released: Vec<Tx>,
}

impl Model for Parts {
    ghost use Rattle.std.specs.Bool.{OnTrue};
    ghost use Rattle.world.specs.Worlds.{World as WorldParts};
    ghost use Rattle.world.specs.Quiet.{IsQuiet};

    ghost Value = { WorldParts };

    ghost view = { λ p. record { a = p.a; b = p.b; chain = p.chain; pool = p.pool.items; released = p.released.items } };

    ghost invariant = { λ p. OnTrue p.quiet_a (IsQuiet p.a) × OnTrue p.quiet_b (IsQuiet p.b) };
}

// Maps success to `Done`.
fn done(acted: Result<(), EventError>) -> Result<Outcome, EventError>
    ensures { result ≡ done_by acted }
{
    match acted {
        Ok(()) => Ok(Outcome::Done),
        Err(error) => Err(error),
    }
}

// The outcome of a look.
fn looked(found: Result<u64, EventError>) -> Result<Outcome, EventError>
    ensures { result ≡ looked_by found }
{
    match found {
        Ok(claims) => Ok(Outcome::Looked { claims }),
        Err(error) => Err(error),
    }
}

// Releases claims of a side into the pool, and records the transaction among those released. A refusal changes nothing.
fn release(
    alloc: Global,
    me: &mut Node,
    pool: &mut Vec<Tx>,
    released: &mut Vec<Tx>,
    count: u64,
) -> Result<Outcome, EventError>
    ensures { let first = release_refusal count me.old in
        MatchResult result
        (λ o. (first ≡ None) × (o ≡ Outcome.Done)
        × IsReleasedTo count me.old me.new pool.old.items released.old.items
        pool.new.items released.new.items)
        (λ e. IsRefusal first e × (me.new ≡ me.old) × (pool.new.items ≡ pool.old.items)
        × (released.new.items ≡ released.old.items)) }
{
    pool.reserve(1)?;
    released.reserve(1)?;
    let filling = releasing::release(alloc, me, count)?;
    pool.push(filling.tx).unwrap();
    released.push(filling.copy).unwrap();
    Ok(Outcome::Done)
}

// Closes a channel of a side, whose newest commitment then waits in the pool. A refusal changes nothing.
#[tactic(auto, using(crate::proofs::Closes::unclosed))]
fn close(
    alloc: Global,
    me: &mut Node,
    pool: &mut Vec<Tx>,
    channel: u64,
) -> Result<Outcome, EventError>
    ensures { let first = refusal_by (closing_in (channel_of me.old channel)) in
        MatchResult result
        (λ o. (o ≡ Outcome.Done) × IsClosedTo channel me.old me.new pool.old.items pool.new.items)
        (λ e. IsRefusal first e × (me.new ≡ me.old) × (pool.new.items ≡ pool.old.items)) }
{
    let tx = publishing::closing(alloc, me, channel)?;
    pool.reserve(1)?;
    let _no_message = me.answer(Call::Close { channel })?;
    pool.push(tx).unwrap();
    Ok(Outcome::Done)
}

impl Parts {
    ghost use Rattle.std.specs.Prelude.{◌≡◌, ◌≤◌, ◌-◌, true, None, MatchResult};
    ghost use Rattle.chain.specs.Blocks.{height_of};
    ghost use Rattle.chain.specs.Checked.{is_checked};
    ghost use Rattle.mempool.specs.Mining.{Mined as MinedParts};
    ghost use Rattle.world.specs.declared.errors.EventError.TheVariants.{NoMemory};
    ghost use Rattle.world.specs.Worlds.{IsNode, node_of};
    ghost use Rattle.world.specs.Steps.{with_waiting, with_mined, blocks_outcome, both_back, IsPlayed, WorldSteps};

    /// Tells the proof what is true of both sides, and that the chain's transactions passed its tests.
    pub(crate) fn hold_both(&self)
        ensures a { IsNode self.now.a }
        ensures b { IsNode self.now.b }
        ensures tested { is_checked self.now.chain.blocks ≡ true }
    {
        self.a.holds();
        self.b.holds();
        self.chain.passed_tests();
    }

    /// The books of both sides, and the chain. All else is dropped.
    pub(crate) fn into_books_and_chain(self) -> BooksAndChain
        ensures a { result.a ≡ self.a.history }
        ensures b { result.b ≡ self.b.history }
        ensures chain { result.chain ≡ self.chain }
    {
        let Parts { a, b, chain, .. } = self;
        BooksAndChain {
            a: a.into_book(),
            b: b.into_book(),
            chain,
        }
    }

    /// A side.
    pub(crate) fn node(&self, side: Side) -> &Node
        ensures { result.now ≡ node_of side self.now }
    {
        match side {
            Side::A => &self.a,
            Side::B => &self.b,
        }
    }

    // A side makes an update.
    fn update(&mut self, side: Side, channel: u64, update: OwnUpdate) -> Result<Outcome, EventError>
        ensures { IsPlayed self.old (Event.Own side channel update) result self.new }
    {
        self.quiet_a = false;
        self.quiet_b = false;
        match side {
            Side::A => done(delivering::update(&mut self.a, &mut self.b, channel, update)),
            Side::B => done(delivering::update(&mut self.b, &mut self.a, channel, update)),
        }
    }

    // A side signs.
    fn sign(&mut self, side: Side, channel: u64) -> Result<Outcome, EventError>
        ensures { IsPlayed self.old (Event.Sign side channel) result self.new }
    {
        self.quiet_a = false;
        self.quiet_b = false;
        match side {
            Side::A => done(delivering::sign(&mut self.a, &mut self.b, channel)),
            Side::B => done(delivering::sign(&mut self.b, &mut self.a, channel)),
        }
    }

    // A side receives its oldest message.
    fn deliver(&mut self, side: Side, channel: u64) -> Result<Outcome, EventError>
        ensures { IsPlayed self.old (Event.Deliver side channel) result self.new }
    {
        self.quiet_a = false;
        self.quiet_b = false;
        match side {
            Side::A => done(delivering::deliver(&mut self.a, &mut self.b, channel)),
            Side::B => done(delivering::deliver(&mut self.b, &mut self.a, channel)),
        }
    }

    // A side keeps penalties.
    fn keep(&mut self, side: Side, channel: u64, number: u64) -> Result<Outcome, EventError>
        ensures { IsPlayed self.old (Event.Keep side channel number) result self.new }
    {
        self.quiet_a = false;
        self.quiet_b = false;
        match side {
            Side::A => done(keeping::keep(self.alloc, &mut self.a, channel, number)),
            Side::B => done(keeping::keep(self.alloc, &mut self.b, channel, number)),
        }
    }

    // Adds a transaction to the pool. If memory runs out, the only error, nothing changes.
    fn publish(&mut self, tx: Tx) -> Result<Outcome, EventError>
        ensures { MatchResult result
            (λ o. (o ≡ Outcome.Done) × (self.new ≡ with_waiting tx self.old))
            (λ e. (e ≡ NoMemory) × (self.new ≡ self.old)) }
    {
        self.pool.push(tx)?;
        Ok(Outcome::Done)
    }

    // Broadcasts a side's commitment. Refused with `NoSuchChannel`, `NoSuchTx`.
    fn broadcast(&mut self, side: Side, channel: u64, number: u64) -> Result<Outcome, EventError>
        ensures { IsPlayed self.old (Event.Broadcast side channel number) result self.new }
    {
        match publishing::commitment(self.alloc, self.node(side), channel, number) {
            Ok(tx) => self.publish(tx),
            Err(error) => Err(error),
        }
    }

    // Broadcasts a side's HTLC transaction. Refused with `NoSuchChannel`, `NoSuchTx`.
    fn broadcast_htlc(
        &mut self,
        side: Side,
        channel: u64,
        number: u64,
        htlc: u64,
    ) -> Result<Outcome, EventError>
        ensures { IsPlayed self.old (Event.BroadcastHtlc side channel number htlc) result self.new }
    {
        match publishing::htlc_tx(self.alloc, self.node(side), channel, number, htlc) {
            Ok(tx) => self.publish(tx),
            Err(error) => Err(error),
        }
    }

    // A side closes a channel. Refused with `NoSuchChannel`.
    fn close(&mut self, side: Side, channel: u64) -> Result<Outcome, EventError>
        ensures { IsPlayed self.old (Event.Close side channel) result self.new }
    {
        self.quiet_a = false;
        self.quiet_b = false;
        let alloc = self.alloc;
        match side {
            Side::A => close(alloc, &mut self.a, &mut self.pool, channel),
            Side::B => close(alloc, &mut self.b, &mut self.pool, channel),
        }
    }

    // The chain grows.
    fn mine(&mut self, count: u64) -> Result<Outcome, EventError>
        ensures { IsPlayed self.old (Event.Blocks count) result self.new }
    {
        let mined = mine(self.alloc, &mut self.chain, &self.pool, count)?;
        self.pool = mined.waiting;
        Ok(Outcome::Mined {
            height: self.chain.height(),
            txs: mined.txs,
        })
    }

    // A side reads the blocks that it has not read yet.
    fn look(&mut self, side: Side) -> Result<Outcome, EventError>
        ensures { IsPlayed self.old (Event.Look side) result self.new }
    {
        match side {
            Side::A => looked(looking::look(
                self.alloc,
                &mut self.a,
                &mut self.quiet_a,
                &self.chain,
            )),
            Side::B => looked(looking::look(
                self.alloc,
                &mut self.b,
                &mut self.quiet_b,
                &self.chain,
            )),
        }
    }

    // A side takes jobs.
    fn take(&mut self, side: Side, count: u64) -> Result<Outcome, EventError>
        ensures { IsPlayed self.old (Event.Take side count) result self.new }
    {
        self.quiet_a = false;
        self.quiet_b = false;
        match side {
            Side::A => done(releasing::take(&mut self.a, count)),
            Side::B => done(releasing::take(&mut self.b, count)),
        }
    }

    // A side releases claims.
    fn release(&mut self, side: Side, count: u64) -> Result<Outcome, EventError>
        ensures { IsPlayed self.old (Event.Release side count) result self.new }
    {
        self.quiet_a = false;
        self.quiet_b = false;
        let alloc = self.alloc;
        match side {
            Side::A => release(
                alloc,
                &mut self.a,
                &mut self.pool,
                &mut self.released,
                count,
            ),
            Side::B => release(
                alloc,
                &mut self.b,
                &mut self.pool,
                &mut self.released,
                count,
            ),
        }
    }

    // Stores the reorganised chain and its pool, and takes both sides back to the fork: the block below those that were replaced.
    fn settle(&mut self, done: Reorganised, depth: u64) -> Outcome
        requires { depth ≤ height_of self.old.chain.blocks }
        ensures world { self.new ≡ both_back (height_of self.old.chain.blocks - depth)
            (with_mined (record { chain = done.chain; waiting = done.pool.items; txs = done.txs })
            self.old) }
        ensures outcome { result ≡ blocks_outcome
            (record { chain = done.chain; waiting = done.pool.items; txs = done.txs }) }
    {
        self.quiet_a = false;
        self.quiet_b = false;
        let fork = self.chain.height() - depth;
        looking::back(&mut self.a, fork);
        looking::back(&mut self.b, fork);
        self.chain = done.chain;
        self.pool = done.pool;
        Outcome::Mined {
            height: self.chain.height(),
            txs: done.txs,
        }
    }

    // Replaces the newest blocks.
    fn reorganise(&mut self, depth: u64, forgotten: u64) -> Result<Outcome, EventError>
        ensures { IsPlayed self.old (Event.Reorg depth forgotten) result self.new }
    {
        match reorganise(
            self.alloc,
            &self.chain,
            &self.pool,
            &self.released,
            depth,
            forgotten,
        ) {
            Ok(done) => Ok(self.settle(done, depth)),
            Err(error) => Err(EventError::of_reorg(error)),
        }
    }

    // Plays an event, or says why it is refused.
    fn play(&mut self, event: &Event) -> Result<Outcome, EventError>
        ensures { IsPlayed self.old event.now result self.new }
    {
        match *event {
            Event::Own {
                side,
                channel,
                update,
            } => self.update(side, channel, update),
            Event::Sign { side, channel } => self.sign(side, channel),
            Event::Deliver { side, channel } => self.deliver(side, channel),
            Event::Keep {
                side,
                channel,
                number,
            } => self.keep(side, channel, number),
            Event::Broadcast {
                side,
                channel,
                number,
            } => self.broadcast(side, channel, number),
            Event::BroadcastHtlc {
                side,
                channel,
                number,
                htlc,
            } => self.broadcast_htlc(side, channel, number, htlc),
            Event::Blocks { count } => self.mine(count),
            Event::Look { side } => self.look(side),
            Event::Take { side, count } => self.take(side, count),
            Event::Release { side, count } => self.release(side, count),
            Event::Reorg { depth, forgotten } => self.reorganise(depth, forgotten),
            Event::Close { side, channel } => self.close(side, channel),
        }
    }

    /// Plays one event. A refusal changes nothing.
    pub(crate) fn step(&mut self, event: &Event) -> Outcome
        ensures { WorldSteps self.old event.now self.new result }
    {
        match self.play(event) {
            Ok(outcome) => outcome,
            Err(error) => Outcome::Refused(error),
        }
    }
}
