//! What is told of a channel that was closed.

ghost use Rattle.std.specs.Prelude.{◌≡◌, ◌||◌, map, option_map, IfOk, OnOk};
ghost use Rattle.std.specs.List.{find};
ghost use Rattle.std.specs.BTreeSet.{contains};
ghost use Rattle.tx.specs.declared.input.OutPoint.{OutPoint as Place};
ghost use Rattle.chain.specs.Blocks.{names};
ghost use Rattle.chain.specs.Indexing.{outpoint_cmp};
ghost use Rattle.resolve.specs.declared.verdicts.Verdict.TheVariants.{Revoked};
ghost use Rattle.watch.specs.Learning.{commitment_by};
ghost use Rattle.sights.specs.Sights.{among, was_taken};
ghost use Rattle.sights.specs.Deadlines.{deadline_of};
ghost use Rattle.sights.specs.Telling.{fills_at, told_by, IsToldBy};

use crate::deadlines::ends_at;
use crate::records::Records;
use crate::sighted::Sighted;
use claim::Claim;
use commit::Commitment;
use penalty::revoked_commitment;
use resolve::{Known, Verdict, due_claims, revoked_at};
use std::alloc::{AllocError, Global};
use std::collections::BTreeSet;
use tx::{OutPoint, TxIn};

/// What is told of a claim that is due after a close.
#[derive(Drop)]
pub struct Told {
    /// The claim, which is accepted.
    pub claim: Claim,
    /// The height of the block that made the claimed output; `None` where none was read.
    pub made_height: Option<u32>,
    /// Whether a transaction that was read took the output.
    pub is_taken: bool,
    /// The least height of a block that can have a filling of the claim: the output's age is reached (BIP 68), and the block is above the claim's lock time (BIP 65).
    pub least_height: Option<u64>,
    /// The least height of a block in which somebody else can take the output. A filling of the claim is safe in all blocks below. `None` where nobody else can, or anybody with the preimage at any time.
    pub deadline: Option<u64>,
}

// Adds the outpoints that inputs name. The only error is that memory ran out.
fn insert_all(taken: &mut BTreeSet<OutPoint>, inputs: &[TxIn]) -> Result<(), AllocError>
    ensures { OnOk result ((o : Place) → contains outpoint_cmp taken.new o ≡ (among o inputs.now
        || contains outpoint_cmp taken.old o)) }
{
    for input in inputs {
        taken.insert(input.outpoint)?;
    }
    Ok(())
}

// The outpoints that the inputs of transactions name. The only error is that memory ran out.
fn taken_in(alloc: Global, sighted: &[Sighted]) -> Result<BTreeSet<OutPoint>, AllocError>
    ensures { IfOk result (λ s. (o : Place) → contains outpoint_cmp s o ≡ was_taken o sighted.now) }
{
    let mut taken = BTreeSet::new(alloc);
    for entry in sighted {
        insert_all(&mut taken, entry.tx.tx().inputs())?;
    }
    Ok(taken)
}

// Whether a transaction takes an output.
fn takes(inputs: &[TxIn], outpoint: &OutPoint) -> bool
    ensures { result ≡ among outpoint.now inputs.now }
{
    for input in inputs {
        if input.outpoint.txid == outpoint.txid && input.outpoint.index == outpoint.index {
            return true;
        }
    }
    false
}

/// The first of the transactions that takes a funding output.
pub(crate) fn close_in<'a>(funding: &OutPoint, sighted: &'a [Sighted]) -> Option<&'a Sighted>
    ensures { option_map (λ s. s.now) result ≡ find (λ s. names funding.now s.tx) sighted.now }
{
    for entry in sighted {
        if takes(entry.tx.tx().inputs(), funding) {
            return Some(entry);
        }
    }
    None
}

// The least height of a block that can have a filling of the claim, where the block of this height made the claimed output.
fn fills_at(claim: &Claim, made: u32) -> u64
    ensures { result ≡ fills_at claim.now made }
{
    let aged = u64::from(made) + u64::from(claim.needs_age());
    aged.max(claim.needs_height() + 1)
}

// When somebody else can take an output, where the commitment is known and the output was made.
fn deadline_of(
    verdict: Verdict,
    commitment: Option<&Commitment>,
    outpoint: &OutPoint,
    made: Option<u32>,
) -> Option<u64>
    ensures { result ≡ deadline_of verdict (option_map (λ c. c.now) commitment.entry) outpoint.now made }
{
    match made {
        Some(made) => match commitment {
            Some(commitment) => ends_at(verdict, commitment, outpoint, made),
            None => None,
        },
        None => None,
    }
}

// What is told of a claim.
fn told_of(
    records: &Records,
    taken: &BTreeSet<OutPoint>,
    verdict: Verdict,
    commitment: Option<&Commitment>,
    claim: Claim,
) -> Told
    requires { (o : Place) → contains outpoint_cmp taken.now o ≡ was_taken o records.now }
    ensures { result ≡ told_by records.now verdict (option_map (λ c. c.now) commitment.entry) claim }
{
    let outpoint = claim.outpoint();
    let made_height = records.made_at(&outpoint);
    let least_height = match made_height {
        Some(made) => Some(fills_at(&claim, made)),
        None => None,
    };
    Told {
        made_height,
        is_taken: taken.contains(&outpoint),
        least_height,
        deadline: deadline_of(verdict, commitment, &outpoint, made_height),
        claim,
    }
}

// What is told of claims that are due by a verdict on this commitment. The only error is that memory ran out.
fn told_all(
    alloc: Global,
    records: &Records,
    taken: &BTreeSet<OutPoint>,
    verdict: Verdict,
    commitment: Option<&Commitment>,
    claims: Vec<Claim>,
) -> Result<Vec<Told>, AllocError>
    requires { (o : Place) → contains outpoint_cmp taken.now o ≡ was_taken o records.now }
    ensures { IfOk result (λ v. v.items ≡ map
        (told_by records.now verdict (option_map (λ c. c.now) commitment.entry)) claims.items) }
{
    let mut told = Vec::new(alloc);
    for claim in claims {
        told.push(told_of(records, taken, verdict, commitment, claim))?;
    }
    Ok(told)
}

// What is told of all that is due by a verdict on this commitment. The only error is that memory ran out.
fn tell_on(
    alloc: Global,
    records: &Records,
    known: &Known,
    verdict: Verdict,
    commitment: Option<&Commitment>,
) -> Result<Vec<Told>, AllocError>
    requires { option_map (λ c. c.now) commitment ≡ commitment_by known.now verdict }
    ensures { IfOk result (λ v. IsToldBy records.now known.now verdict v.items) }
{
    let taken = taken_in(alloc, records.values())?;
    let claims = due_claims(alloc, known, verdict)?;
    told_all(alloc, records, &taken, verdict, commitment, claims)
}

// The same for a commitment that was revoked.
fn tell_on_revoked(
    alloc: Global,
    records: &Records,
    known: &Known,
    n: u64,
) -> Result<Vec<Told>, AllocError>
    ensures { IfOk result (λ v. IsToldBy records.now known.now (Revoked n) v.items) }
{
    match revoked_at(known, n) {
        None => tell_on(alloc, records, known, Verdict::Revoked(n), None),
        Some(revoked) => {
            let commitment = revoked_commitment(alloc, &revoked.state)?;
            tell_on(
                alloc,
                records,
                known,
                Verdict::Revoked(n),
                Some(&commitment),
            )
        }
    }
}

/// What is told by a verdict. The only error is that memory ran out.
pub(crate) fn tell(
    alloc: Global,
    records: &Records,
    known: &Known,
    verdict: Verdict,
) -> Result<Vec<Told>, AllocError>
    ensures { IfOk result (λ v. IsToldBy records.now known.now verdict v.items) }
{
    match verdict {
        Verdict::Ours => {
            let own = known.own.commitment.commitment();
            tell_on(alloc, records, known, verdict, Some(own))
        }
        Verdict::Theirs => {
            let theirs = known.theirs.commitment();
            tell_on(alloc, records, known, verdict, Some(theirs))
        }
        Verdict::TheirsNext => match &known.next {
            None => tell_on(alloc, records, known, verdict, None),
            Some(next) => tell_on(alloc, records, known, verdict, Some(next.commitment())),
        },
        Verdict::Revoked(n) => tell_on_revoked(alloc, records, known, n),
        Verdict::Unknown => tell_on(alloc, records, known, verdict, None),
    }
}
