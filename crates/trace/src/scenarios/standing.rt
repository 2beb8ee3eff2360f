//! The claims of both sides on outputs of closes that stand unspent, each with its deadline, as `sights` tells them from the blocks.

use crate::names::side_name;
use crate::scenarios::claims::{begin_claim, way_of};
use book::Book;
use chain::Coins as _;
use page::Piece::{Count, Hash};
use page::{Page, Piece};
use resolve::{Known, preimage_in};
use sights::{Sights, Told as ToldClaim};
use std::alloc::{AllocError, Global};
use std::collections::BTreeMap;
use std::mem;
use terms::{Side, number_of};
use tx::{OutPoint, Tx};
use world::World;

/// By what a claim spends its output, from which block on it can be filled, and from which one on somebody else can take the output.
#[derive(Clone, Copy, PartialEq, Eq, Drop)]
struct Span {
    by: &'static str,
    due: u64,
    deadline: Option<u64>,
}

/// The claims of a side in a channel whose outputs stand unspent, as they were written.
type Spans = BTreeMap<OutPoint, Span>;

/// What decides which claims a side has on a commitment that closed a channel: whether it or its peer has a newer one, and how many preimages came. A number that is greater than that commitment's counts as the next one. Once
/// both have a newer one, it is revoked, and no preimage counts.
#[derive(Clone, Copy, PartialEq, Eq, Drop)]
struct Knowledge {
    own: u64,
    peers: u64,
    preimages: usize,
}

/// What was written of the claims of a side in a channel, and by what knowledge, if no block showed something since.
#[derive(Drop)]
struct Written {
    spans: Spans,
    by: Option<Knowledge>,
}

/// The funding output of a channel, and what was written of each side's claims in it.
#[derive(Drop)]
struct Claims {
    funding: OutPoint,
    of_a: Written,
    of_b: Written,
}

/// What was read of the blocks, and the claims in each channel.
#[derive(Drop)]
pub struct Standing {
    sights: Sights,
    channels: Vec<Claims>,
}

/// What an event changed of the claims: those that are new, and those that stand no longer, each as the elements of an array.
#[derive(Drop)]
struct Changes {
    new: Page,
    gone: Page,
}

// Adds the preimages that the inputs of a transaction show. The only error is that memory ran out.
fn push_shown(shown: &mut Vec<[u8; 32]>, tx: &Tx) -> Result<(), AllocError> {
    for index in 0..tx.inputs().len() {
        if let Some(preimage) = preimage_in(tx, index) {
            shown.push(preimage)?;
        }
    }
    Ok(())
}

// The preimages that the blocks show. The only error is that memory ran out.
fn shown_in(alloc: Global, sights: &Sights) -> Result<Vec<[u8; 32]>, AllocError> {
    let mut shown = Vec::new(alloc);
    for entry in sights.sighted() {
        push_shown(&mut shown, entry.tx.tx())?;
    }
    Ok(shown)
}

// What is told of a side's claims in a channel, by what it knows and by these preimages. The only error is that memory ran out.
fn told_by(
    alloc: Global,
    sights: &Sights,
    known: &mut Known,
    shown: &[[u8; 32]],
) -> Result<Vec<ToldClaim>, AllocError> {
    known.preimages.extend(shown)?;
    known.preimages.index()?;
    sights.told(alloc, known)
}

// The same, by what its book knows.
fn told_of(
    alloc: Global,
    sights: &Sights,
    world: &World,
    side: Side,
    channel: u64,
    shown: &[[u8; 32]],
) -> Result<Vec<ToldClaim>, AllocError> {
    match world.book(side).known(channel) {
        Ok(mut known) => told_by(alloc, sights, &mut known, shown),
        Err(_) => Err(AllocError),
    }
}

// What a side knows of the commitment that closed a channel; `None` where none did.
fn knowledge_of(
    sights: &Sights,
    funding: &OutPoint,
    book: &Book,
    channel: u64,
) -> Option<Knowledge> {
    let close = sights.close(funding)?;
    let state = book.channel(channel)?;
    let next = number_of(state.terms(), close.tx.tx())?.saturating_add(1);
    let (own, peers) = (state.number().min(next), state.peer_number().min(next));
    let is_revoked = own == next && peers == next;
    let preimages = if is_revoked {
        0
    } else {
        book.preimages(channel).len()
    };
    Some(Knowledge {
        own,
        peers,
        preimages,
    })
}

// When a claim can be filled, if its output stands unspent.
fn span_of(told: &ToldClaim) -> Option<Span> {
    match told.least_height {
        Some(due) if !told.is_taken => Some(Span {
            by: way_of(&told.claim),
            due,
            deadline: told.deadline,
        }),
        _ => None,
    }
}

impl Changes {
    fn new(alloc: Global) -> Changes {
        let mut changes = Changes {
            new: Page::new(alloc),
            gone: Page::new(alloc),
        };
        changes.new.push("[");
        changes.gone.push("[");
        changes
    }

    // Moves the claims that stand from those before to those after, and adds each that was not written so. The only error is that memory ran out.
    fn add_new(
        &mut self,
        before: &mut Spans,
        after: &mut Spans,
        side: Side,
        channel: u64,
        told: &[ToldClaim],
    ) -> Result<(), AllocError> {
        for it in told {
            if let Some(span) = span_of(it) {
                let outpoint = it.claim.outpoint();
                if before.remove(&outpoint) != Some(span) {
                    begin_claim(&mut self.new, side, channel, &it.claim, Count(span.due));
                    self.new
                        .write(r#","deadline":%}"#, &[Piece::or_null(span.deadline)]);
                }
                after.insert(outpoint, span)?;
            }
        }
        Ok(())
    }

    // Adds claims that stand no longer.
    fn add_gone(&mut self, gone: &Spans, side: Side, channel: u64) {
        for outpoint in gone.keys() {
            self.gone.element(
                r#"{"side":"%","channel":%,"outpoint":"%:%"}"#,
                &[
                    side_name(side),
                    Count(channel),
                    Hash(outpoint.txid),
                    Count(u64::from(outpoint.index)),
                ],
            );
        }
    }

    // Replaces the claims of a side in a channel by what is told of them now, and adds what changed. The only error is that memory ran out.
    fn add(
        &mut self,
        spans: &mut Spans,
        side: Side,
        channel: u64,
        told: &[ToldClaim],
    ) -> Result<(), AllocError> {
        let mut before = mem::replace(spans, BTreeMap::new(self.new.alloc()));
        self.add_new(&mut before, spans, side, channel, told)?;
        self.add_gone(&before, side, channel);
        Ok(())
    }

    // Writes a member of the line, if it has elements.
    fn tell_member(line: &mut Page, name: &'static str, elements: &Page) {
        match elements.whole() {
            Some("[") => {}
            Some(text) => {
                line.push(name);
                line.push(text);
                line.push("]");
            }
            None => line.fail(),
        }
    }

    fn tell(&self, line: &mut Page) {
        Changes::tell_member(line, r#","stands":"#, &self.new);
        Changes::tell_member(line, r#","gone":"#, &self.gone);
    }
}

impl Written {
    fn new(alloc: Global) -> Written {
        Written {
            spans: BTreeMap::new(alloc),
            by: None,
        }
    }

    // Whether that is still so by this knowledge.
    fn holds(&self, knowledge: Option<Knowledge>) -> bool {
        match knowledge {
            Some(_) => self.by == knowledge,
            None => self.spans.is_empty(),
        }
    }

    // Adds what changed of the side's claims, by the preimages that the blocks show. The only error is that memory ran out.
    fn add_changes(
        &mut self,
        changes: &mut Changes,
        sights: &Sights,
        world: &World,
        funding: &OutPoint,
        side: Side,
        channel: u64,
        shown: &[[u8; 32]],
    ) -> Result<(), AllocError> {
        let knowledge = knowledge_of(sights, funding, world.book(side), channel);
        if self.holds(knowledge) {
            return Ok(());
        }
        self.by = knowledge;
        let told = told_of(changes.new.alloc(), sights, world, side, channel, shown)?;
        changes.add(&mut self.spans, side, channel, told.as_slice())
    }
}

impl Claims {
    // Adds what changed of the claims in the channel, by the preimages that the blocks show. The only error is that memory ran out.
    fn add_changes(
        &mut self,
        changes: &mut Changes,
        sights: &Sights,
        world: &World,
        channel: u64,
        shown: &[[u8; 32]],
    ) -> Result<(), AllocError> {
        let funding = self.funding;
        self.of_a
            .add_changes(changes, sights, world, &funding, Side::A, channel, shown)?;
        self.of_b
            .add_changes(changes, sights, world, &funding, Side::B, channel, shown)
    }
}

impl Standing {
    /// Nothing read yet. The only error is that memory ran out.
    pub(crate) fn new(alloc: Global) -> Result<Standing, AllocError> {
        Ok(Standing {
            sights: Sights::new(alloc)?,
            channels: Vec::new(alloc),
        })
    }

    /// Follows one more channel, by its funding output.
    pub(crate) fn open(&mut self, line: &mut Page, funding: &OutPoint) {
        let claims = Claims {
            funding: *funding,
            of_a: Written::new(line.alloc()),
            of_b: Written::new(line.alloc()),
        };
        if self.sights.open(*funding).is_err() || self.channels.push(claims).is_err() {
            line.fail();
        }
    }

    // Adds what changed of the claims in a channel, by the preimages that the blocks show. The only error is that memory ran out.
    fn add_changes(
        &mut self,
        changes: &mut Changes,
        world: &World,
        channel: u64,
        shown: &[[u8; 32]],
    ) -> Result<(), AllocError> {
        match self.channels.get_mut(channel as usize) {
            Some(claims) => claims.add_changes(changes, &self.sights, world, channel, shown),
            None => Ok(()),
        }
    }

    // Adds what changed of the claims in channels from a first one on, up to a last one. The only error is that memory ran out.
    fn add_all_changes(
        &mut self,
        changes: &mut Changes,
        world: &World,
        first: u64,
        last: u64,
    ) -> Result<(), AllocError> {
        let shown = shown_in(changes.new.alloc(), &self.sights)?;
        for channel in first..last {
            self.add_changes(changes, world, channel, shown.as_slice())?;
        }
        Ok(())
    }

    // Writes what changed of the claims in channels from a first one on, up to a last one.
    fn tell(&mut self, line: &mut Page, world: &World, first: u64, last: u64) {
        let mut changes = Changes::new(line.alloc());
        if self
            .add_all_changes(&mut changes, world, first, last)
            .is_err()
        {
            line.fail();
        }
        changes.tell(line);
    }

    /// Writes what changed of the claims in a channel, by an event that may have changed what is known of it.
    pub(crate) fn tell_channel(&mut self, line: &mut Page, world: &World, channel: u64) {
        self.tell(line, world, channel, channel.saturating_add(1));
    }

    // Reads the blocks above a height, in place of those that were read of it before. Returns whether any of these shows something. The only error is that memory ran out.
    fn read(&mut self, world: &World, above: u64) -> Result<bool, AllocError> {
        let before = self.sights.sighted().len();
        self.sights
            .disconnect(u32::try_from(above).unwrap_or(u32::MAX));
        let kept = self.sights.sighted().len();
        let blocks = world.chain().blocks();
        for height in above.saturating_add(1)..blocks.len() as u64 {
            if let (Some(block), Ok(height)) = (
                blocks.get(height as usize),
                u32::try_from(height),
            ) {
                self.sights.block(height, block)?;
            }
        }
        Ok(kept < before || kept < self.sights.sighted().len())
    }

    // All claims have to be looked at anew.
    fn forget_knowledge(&mut self) {
        for claims in &mut self.channels {
            claims.of_a.by = None;
            claims.of_b.by = None;
        }
    }

    /// Reads the blocks above a height, in place of those that were read before, and writes what changed of the claims.
    pub(crate) fn tell_blocks(&mut self, line: &mut Page, world: &World, above: u64) {
        let count = self.channels.len() as u64;
        match self.read(world, above) {
            Ok(true) => {
                self.forget_knowledge();
                self.tell(line, world, 0, count);
            }
            Ok(false) => {}
            Err(_) => line.fail(),
        }
    }
}
