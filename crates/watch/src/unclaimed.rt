//! The claims that are due and weren't given yet.

ghost use Rattle.std.specs.Prelude.{◌≡◌, ◌++◌, ◌∷◌, [], if◌then◌else◌, map, IfOk, OnOk, OnErr};
ghost use Rattle.std.specs.List.{AllByRecursion};
ghost use Rattle.claim.specs.Claims.{IsAccepted};
ghost use Rattle.penalty.specs.Sets.{claimed_by};
ghost use Rattle.watch.specs.Watching.{Extends, is_given, given_at, unclaimed, due_by};

use crate::spends::{Spend, same_outpoint};
use crate::verdicts::verdict;
use claim::Claim;
use resolve::{Known, due_claims};
use std::alloc::{AllocError, Global};
use tx::OutPoint;

/// A claim that was given: what it claims, and by which path.
#[derive(Clone, Copy, Debug, PartialEq, Eq, Drop)]
pub struct Given {
    /// The claimed output.
    pub outpoint: OutPoint,
    /// The index of the path among those of the output's script.
    pub path: usize,
    /// The height of the block after which it was given.
    pub height: u64,
}

// Whether a claim with the outpoint and the path of this one was given.
fn is_given(given: &[Given], claim: &Claim) -> bool
    ensures { result ≡ is_given given.now (claimed_by claim.now) }
{
    let outpoint = claim.outpoint();
    let path = claim.index();
    given.iter().any(|g| same_outpoint(&g.outpoint, &outpoint) && g.path == path)
}

// Appends a claim that wasn't given yet, and notes it as given.
fn push_if_unclaimed(
    height: u64,
    claim: Claim,
    given: &mut Vec<Given>,
    claims: &mut Vec<Claim>,
) -> Result<(), AllocError>
    ensures claims { OnOk result (claims.new.items ≡ claims.old.items
        ++ (if is_given given.old.items (claimed_by claim) then [] else claim ∷ [])) }
    ensures given { OnOk result (given.new.items ≡ given.old.items
        ++ (if is_given given.old.items (claimed_by claim) then []
        else given_at height (claimed_by claim) ∷ [])) }
    ensures err { OnErr result (Extends given.old.items given.new.items) }
{
    if is_given(given.as_slice(), &claim) {
        return Ok(());
    }
    let outpoint = claim.outpoint();
    let path = claim.index();
    given.push(Given {
        outpoint,
        path,
        height,
    })?;
    claims.push(claim)?;
    Ok(())
}

/// Appends those claims that weren't given yet, each once, and notes them as given. The only error is that memory ran out; some of them may have been
/// noted by then.
pub(crate) fn push_unclaimed(
    height: u64,
    due: Vec<Claim>,
    given: &mut Vec<Given>,
    claims: &mut Vec<Claim>,
) -> Result<(), AllocError>
    requires { AllByRecursion IsAccepted due.items }
    ensures claims { OnOk result (map claimed_by claims.new.items ≡ map claimed_by claims.old.items
        ++ unclaimed height given.old.items (map claimed_by due.items)) }
    ensures accepted { OnOk result (AllByRecursion IsAccepted claims.old.items
        → AllByRecursion IsAccepted claims.new.items) }
    ensures given { OnOk result (given.new.items ≡ given.old.items ++ map (given_at height)
        (unclaimed height given.old.items (map claimed_by due.items))) }
    ensures err { OnErr result (Extends given.old.items given.new.items) }
{
    for claim in due {
        push_if_unclaimed(height, claim, given, claims)?;
    }
    Ok(())
}

// Appends all claims.
fn push_all(from: Vec<Claim>, to: &mut Vec<Claim>) -> Result<(), AllocError>
    ensures { OnOk result (to.new.items ≡ to.old.items ++ from.items) }
{
    for claim in from {
        to.push(claim)?;
    }
    Ok(())
}

/// What is due by the verdicts of transactions. The only error is that memory ran out.
pub(crate) fn due_by(
    alloc: Global,
    known: &Known,
    spends: &[Spend],
) -> Result<Vec<Claim>, AllocError>
    ensures exact { IfOk result (λ v. map claimed_by v.items ≡ due_by known.now spends.now) }
    ensures accepted { IfOk result (λ v. AllByRecursion IsAccepted v.items) }
{
    let mut due = Vec::new(alloc);
    for spend in spends {
        let verdict = verdict(known, &spend.tx);
        push_all(due_claims(alloc, known, verdict)?, &mut due)?;
    }
    Ok(due)
}
