//! A watch that reads many blocks by what is known of its channel.

ghost use Rattle.std.specs.Prelude.{◌≡◌, ◌++◌, IfOk, IfSome, OnOk, OnErr};
ghost use Rattle.std.specs.List.{list_any};
ghost use Rattle.std.specs.Str.{bytes_eq};
ghost use Rattle.sha2.specs.Sha256.{sha256};
ghost use Rattle.watch.specs.Learning.{htlcs_by, learnt_in};
ghost use Rattle.watch.specs.Lookouts.{pays, some_is_paid, changes, some_changes};

use crate::learning::{CommitmentHtlcs, htlcs_by, learnt_in};
use crate::spends::{Spend, some_spends};
use crate::verdicts::{is_current, verdict};
use crate::watching::{Sight, Watch};
use chain::{Block, Confirmed};
use claim::Claim;
use commit::HtlcOutput;
use digest::sha256;
use resolve::{Known, Verdict};
use std::alloc::{AllocError, Global};
use std::marker::Model;
use tx::txid;

/// A watch that reads many blocks by what is known of its channel, and works out once what stays the same from one to the next. Once all that is due was
/// given, a block without a transaction on the funding output costs one pass over its inputs. Where a commitment that isn't revoked closes the channel, the preimages known then are hashed once.
#[derive(Drop)]
pub struct Lookout {
    watch: Watch,
    // Apart, so that many lookouts lie close together.
    known: Box<Known>,
    // The HTLCs of the known commitments among the transactions that were read, if they are worked out.
    commitments: Option<Vec<CommitmentHtlcs>>,
    // Whether all that is due was given.
    is_settled: bool,
}

impl Model for Lookout {
    ghost use Rattle.std.specs.Prelude.{◌≡◌, IfSome};
    ghost use Rattle.std.specs.Bool.{OnTrue};
    ghost use Rattle.watch.specs.Learning.{htlcs_by};
    ghost use Rattle.watch.specs.Lookouts.{LookoutParts, IsSettled};

    ghost Value = { LookoutParts };

    ghost view = { λ l. record { seen = l.watch; known = l.known.value } };

    ghost invariant = { λ l.
        IfSome l.commitments (λ c. c.items ≡ htlcs_by l.known.value l.watch.spends)
        × OnTrue l.is_settled (IsSettled l.watch l.known.value) };
}

// What a block shows, after these transactions were read. The HTLCs of the known commitments among them are worked out where they weren't yet. The only
// error is that memory ran out.
fn shown(
    alloc: Global,
    known: &Known,
    spends: &[Spend],
    commitments: &mut Option<Vec<CommitmentHtlcs>>,
    txs: &[Confirmed],
) -> Result<Vec<[u8; 32]>, AllocError>
    requires { IfSome commitments.old (λ c. c.items ≡ htlcs_by known.now spends.now) }
    ensures shown { IfOk result (λ v. v.items ≡ learnt_in (htlcs_by known.now spends.now) txs.now) }
    ensures kept { IfSome commitments.new (λ c. c.items ≡ htlcs_by known.now spends.now) }
{
    if txs.is_empty() {
        return Ok(Vec::new(alloc));
    }
    match commitments {
        Some(htlcs) => learnt_in(alloc, htlcs, txs),
        None => {
            let htlcs = htlcs_by(alloc, known, spends)?;
            let learnt = learnt_in(alloc, &htlcs, txs)?;
            *commitments = Some(htlcs);
            Ok(learnt)
        }
    }
}

// Whether one of the HTLCs has this preimage's hash.
fn pays(htlcs: &[HtlcOutput], preimage: &[u8; 32]) -> bool
    ensures { result ≡ pays htlcs.now preimage.now }
{
    let hash = sha256(preimage);
    htlcs.iter().any(|htlc| hash == htlc.htlc.hash)
}

// Whether one of the HTLCs has the hash of one of these preimages.
fn some_is_paid(preimages: &[[u8; 32]], htlcs: &[HtlcOutput]) -> bool
    ensures { result ≡ some_is_paid preimages.now htlcs.now }
{
    preimages.iter().any(|preimage| pays(htlcs, preimage))
}

// Whether more may be due by a verdict once these preimages are known.
fn changes(known: &Known, preimages: &[[u8; 32]], verdict: Verdict) -> bool
    ensures { result ≡ changes known.now preimages.now verdict }
{
    match verdict {
        Verdict::Ours => some_is_paid(preimages, known.own.commitment.commitment().htlcs()),
        Verdict::Theirs => some_is_paid(preimages, known.theirs.commitment().htlcs()),
        Verdict::TheirsNext => match &known.next {
            None => false,
            Some(next) => some_is_paid(preimages, next.commitment().htlcs()),
        },
        Verdict::Revoked(_) => false,
        Verdict::Unknown => false,
    }
}

// Whether more may be due by the verdict of one of the transactions.
fn some_changes(known: &Known, preimages: &[[u8; 32]], spends: &[Spend]) -> bool
    ensures { result ≡ some_changes known.now preimages.now spends.now }
{
    spends.iter().any(|spend| changes(known, preimages, verdict(known, &spend.tx)))
}

// Whether a known commitment that isn't revoked is among transactions that were read or are in a block, so that what is due may depend on preimages. It
// decides whether they are indexed, and not what is found.
fn some_is_current(known: &Known, spends: &[Spend], txs: &[Confirmed]) -> bool {
    spends
        .iter()
        .any(|spend| is_current(known, &txid(&spend.tx)))
        || txs
            .iter()
            .any(|confirmed| is_current(known, confirmed.id()))
}

impl Lookout {
    ghost use Rattle.std.specs.Prelude.{◌≡◌, reverse, IfOk, OnOk, OnErr};
    ghost use Rattle.penalty.specs.Sets.{AreClaimsOn};
    ghost use Rattle.watch.specs.Watching.{due_by, seen_after, seen_up_to};
    ghost use Rattle.watch.specs.Sights.{IsSight};
    ghost use Rattle.watch.specs.Lookouts.{with_learnt};

    /// A watch with what is known of its channel.
    pub fn new(watch: Watch, known: Box<Known>) -> Lookout
        ensures { result ≡ record { seen = watch; known = known.value } }
    {
        Lookout {
            watch,
            known,
            commitments: None,
            is_settled: false,
        }
    }

    /// What is known of the channel.
    pub fn known(&self) -> &Known
        ensures { result.now ≡ self.now.known }
    {
        &self.known
    }

    /// The watch, without what is known.
    pub fn into_watch(self) -> Watch
        ensures { result ≡ self.seen }
    {
        let Lookout {
            watch,
            known,
            commitments,
            ..
        } = self;
        drop(known);
        drop(commitments);
        watch
    }

    // Reads a block as the watch does. Afterwards all that is due has been given.
    fn look_anew(&mut self, alloc: Global, height: u64, block: &Block) -> Result<Sight, AllocError>
        ensures sight { IfOk result (λ s. IsSight self.old.seen height
            (reverse block.now.transactions) self.old.known s.claims.items s.learnt.items) }
        ensures ok { OnOk result (self.new
            ≡ record self.old {
              seen = seen_after self.old.seen height
                  (reverse block.now.transactions) self.old.known;
            }) }
        ensures err { OnErr result (self.new ≡ self.old) }
    {
        let sight = self.watch.look(alloc, height, block, &self.known)?;
        drop(self.commitments.take());
        self.is_settled = true;
        Ok(sight)
    }

    // Hashes each known preimage once, if what is due after a block may depend on them.
    fn index_preimages(&mut self, block: &Block) -> Result<(), AllocError>
        ensures { self.new ≡ self.old }
    {
        if some_is_current(&self.known, self.watch.spends(), block.transactions()) {
            self.known.preimages.index()?;
        }
        Ok(())
    }

    // The same as `look_anew`, with preimages that are found by their hashes.
    fn look_indexed(
        &mut self,
        alloc: Global,
        height: u64,
        block: &Block,
    ) -> Result<Sight, AllocError>
        ensures sight { IfOk result (λ s. IsSight self.old.seen height
            (reverse block.now.transactions) self.old.known s.claims.items s.learnt.items) }
        ensures ok { OnOk result (self.new
            ≡ record self.old {
              seen = seen_after self.old.seen height
                  (reverse block.now.transactions) self.old.known;
            }) }
        ensures err { OnErr result (self.new ≡ self.old) }
    {
        self.index_preimages(block)?;
        self.look_anew(alloc, height, block)
    }

    /// Reads the block at a height, above the blocks that it read before, by what is known: as `Watch::look` does. If no transaction of the block spends
    /// the funding output and all that is due was given, it costs one pass over the block's inputs.
    ///
    /// The only error is that memory ran out, which leaves the lookout as it was.
    pub fn look(&mut self, alloc: Global, height: u64, block: &Block) -> Result<Sight, AllocError>
        ensures sight { IfOk result (λ s. IsSight self.old.seen height
            (reverse block.now.transactions) self.old.known s.claims.items s.learnt.items) }
        ensures ok { OnOk result (self.new
            ≡ record self.old {
              seen = seen_after self.old.seen height
                  (reverse block.now.transactions) self.old.known;
            }) }
        ensures err { OnErr result (self.new ≡ self.old) }
    {
        let txs = block.transactions();
        if !self.is_settled || some_spends(&self.known.terms.funding, txs) {
            return self.look_indexed(alloc, height, block);
        }
        let spends = self.watch.spends();
        let learnt = shown(alloc, &self.known, spends, &mut self.commitments, txs)?;
        Ok(Sight {
            claims: Vec::new(alloc),
            learnt,
        })
    }

    /// All claims that are due by what is known and by the transactions read so far that spend the funding output, in order and whatever was given before: as `Watch::due` gives them. The only error is that memory
    /// ran out.
    pub fn due(&self, alloc: Global) -> Result<Vec<Claim>, AllocError>
        ensures { IfOk result (λ v. AreClaimsOn (due_by self.now.known self.now.seen.spends)
            v.items) }
    {
        self.watch.due(alloc, &self.known)
    }

    /// Adds known preimages, for the blocks that it reads from now on. The only error is that memory ran out, which leaves the lookout as it was.
    pub fn learn(&mut self, preimages: &[[u8; 32]]) -> Result<(), AllocError>
        ensures ok { OnOk result (self.new
            ≡ record self.old { known = with_learnt preimages.now self.old.known }) }
        ensures err { OnErr result (self.new ≡ self.old) }
    {
        if preimages.is_empty() {
            return Ok(());
        }
        let changes = some_changes(&self.known, preimages, self.watch.spends());
        self.known.preimages.extend(preimages)?;
        if changes {
            self.is_settled = false;
        }
        Ok(())
    }

    /// Forgets what it read and gave for the blocks above a height, which were taken off, as `Watch::back` does. What is known stays.
    pub fn back(&mut self, height: u64)
        ensures { self.new ≡ record self.old { seen = seen_up_to height self.old.seen } }
    {
        self.watch.back(height);
        drop(self.commitments.take());
        self.is_settled = false;
    }
}
