//! Releases again what did not stand.

ghost use Rattle.std.specs.Prelude.{◌≡◌, ◌++◌, ◌∷◌, [], length, slice_get, IfOk, IfErr, OnOk};
ghost use Rattle.std.specs.List.{list_any};
ghost use Rattle.tx.specs.Fields.{same_outpoint};
ghost use Rattle.book.specs.Calls.{IsBatchOf};
ghost use Rattle.book.specs.Again.{without_spent, rest_refusal, batch_refusal, IsRest, IsRestRefusal};

use crate::calls::{Batch, Call, Entry};
use crate::errors::ReleaseAgainError;
use crate::history::Book;
use claim::Claim;
use filling::Filled;
use lists::List;
use std::alloc::{AllocError, Global};
use tx::{MAX_OUTPUTS, OutPoint, TxOut};

// The channel of a release, and what is left of its batch.
#[derive(Drop)]
struct Rest {
    channel: u64,
    batch: Batch,
}

// Whether an output is among these.
fn is_among(outpoint: &OutPoint, outpoints: &[OutPoint]) -> bool
    ensures { result ≡ list_any (λ o. same_outpoint o outpoint.now) outpoints.now }
{
    outpoints.iter().any(|other| other.txid == outpoint.txid && other.index == outpoint.index)
}

// Appends a copy of a claim, unless its output is among those that were spent.
fn push_unless_spent(
    claim: &Claim,
    spent: &[OutPoint],
    left: &mut List<Claim>,
) -> Result<(), AllocError>
    ensures { OnOk result (left.new ≡ left.old ++ without_spent spent.now (claim.now ∷ [])) }
{
    if is_among(&claim.outpoint(), spent) {
        return Ok(());
    }
    left.push(claim.copy()?)?;
    Ok(())
}

// Copies of the claims whose outputs are not among those that were spent. The only error is that memory ran out.
fn without_spent(
    alloc: Global,
    claims: &[Claim],
    spent: &[OutPoint],
) -> Result<List<Claim>, AllocError>
    ensures { IfOk result (λ left. left ≡ without_spent spent.now claims.now) }
{
    let mut left = List::new(alloc);
    for claim in claims {
        push_unless_spent(claim, spent, &mut left)?;
    }
    Ok(left)
}

// A copy of preimages. The only error is that memory ran out.
fn copied(preimages: &List<[u8; 32]>) -> Result<List<[u8; 32]>, AllocError>
    ensures { IfOk result (λ copy. copy ≡ preimages.now) }
{
    let copy = Vec::from_slice(preimages.allocator(), preimages.values())?;
    Ok(List::from_vec(copy))
}

// What is left of a batch, with other outputs.
fn rest_of(
    batch: &Batch,
    spent: &[OutPoint],
    outputs: List<TxOut>,
) -> Result<Batch, ReleaseAgainError>
    ensures ok { IfOk result (IsBatchOf (without_spent spent.now batch.now.claims) outputs
        batch.now.preimages) }
    ensures err { IfErr result (IsRestRefusal (batch_refusal spent.now outputs batch.now)) }
{
    if outputs.len() > MAX_OUTPUTS {
        return Err(ReleaseAgainError::TooManyOutputs);
    }
    let alloc = batch.claims.allocator();
    let claims = without_spent(alloc, batch.claims.values(), spent)?;
    if claims.is_empty() {
        return Err(ReleaseAgainError::NothingLeft);
    }
    let preimages = copied(&batch.preimages)?;
    Ok(Batch {
        claims,
        outputs,
        preimages,
    })
}

// What is left of the release at an index of a history, with other outputs.
fn rest_at(
    entries: &[Entry],
    index: usize,
    spent: &[OutPoint],
    outputs: List<TxOut>,
) -> Result<Rest, ReleaseAgainError>
    ensures ok { IfOk result (λ r. IsRest (slice_get entries.now index) spent.now outputs r.channel
        r.batch) }
    ensures err { IfErr result (IsRestRefusal
        (rest_refusal spent.now outputs (slice_get entries.now index))) }
{
    let Some(entry) = entries.get(index) else {
        return Err(ReleaseAgainError::NoSuchEntry);
    };
    match &entry.call {
        Call::Release { channel, batch } => match rest_of(batch, spent, outputs) {
            Ok(rest) => Ok(Rest {
                channel: *channel,
                batch: rest,
            }),
            Err(error) => Err(error),
        },
        _ => Err(ReleaseAgainError::NotARelease),
    }
}

impl Book {
    ghost use Rattle.std.specs.Prelude.{Ok, MatchResult};
    ghost use Rattle.book.specs.Again.{IsReleasedAgain, IsAgainRefusal};

    /// Releases again what did not stand, of a release of the history by its index: fills copies of its claims, but for those on outputs that another transaction spent. The transaction has
    /// these outputs, since what is left may be worth less; they are ignored where a claim has a fixed transaction. What was released is filed as a release of its own, so that it can be released again in its turn.
    ///
    /// With no spent outputs it fills all of the claims, as after a reorganisation that took their transaction off. Refused, in this order, with `NoSuchEntry`, `NotARelease`, `TooManyOutputs` above 4,000 of them,
    /// `NothingLeft` where the output of each claim was spent, and else as `release` is. A refusal leaves the book as it was.
    pub fn release_again(
        &mut self,
        seat: u32,
        entry: u64,
        spent: &[OutPoint],
        outputs: List<TxOut>,
    ) -> Result<Filled, ReleaseAgainError>
        ensures { MatchResult result
            (λ f. IsReleasedAgain self.old self.new seat entry spent.now outputs (Ok f))
            (IsAgainRefusal self.old self.new seat entry spent.now outputs) }
    {
        let Rest { channel, batch } = match rest_at(
            self.entries(),
            entry as usize,
            spent,
            outputs,
        ) {
            Ok(rest) => rest,
            Err(error) => return Err(error),
        };
        match self.release(seat, channel, batch) {
            Ok(filled) => Ok(filled),
            Err(error) => Err(ReleaseAgainError::Refused(error)),
        }
    }
}
