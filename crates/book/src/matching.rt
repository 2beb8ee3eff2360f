//! Whether claims are a penalty set.

ghost use Rattle.std.specs.Prelude.{◌≡◌, ◌↔◌, ◌&&◌, not, map, All, IsTrue};
ghost use Rattle.std.specs.List.{AllByRecursion};
ghost use Rattle.tx.specs.Fields.{same_outpoint};
ghost use Rattle.claim.specs.declared.parts.Shell.TheVariants.{Open};
ghost use Rattle.claim.specs.Claims.{IsWhole};
ghost use Rattle.forms.specs.Fillings.{filling_of};
ghost use Rattle.penalty.specs.Claimable.{claimable_of};
ghost use Rattle.penalty.specs.Sets.{claimed_by, IsClaimOn, AreClaimsOn};
ghost use Rattle.filling.specs.Refusals.{is_fixed};
ghost use Rattle.book.specs.Penalties.{same_place, same_filling, same_fillings, same_claimable, all_match, is_claim_on, are_claims_on, IsChecked};

use claim::{Claim, OutPoint, Place, Shell, Slot};
use penalty::PenaltySet;

fn same_outpoint(a: &OutPoint, b: &OutPoint) -> bool
    ensures { result ≡ same_outpoint a.now b.now }
{
    a.txid == b.txid && a.index == b.index
}

fn same_place(a: &Place, b: &Place) -> bool
    ensures { result ≡ same_place a.now b.now }
{
    same_outpoint(&a.outpoint, &b.outpoint) && a.value == b.value && a.program.equals(&b.program)
}

// Whether two slots have equal fillings.
fn same_slot(a: &Slot, b: &Slot) -> bool
    ensures { result ≡ same_filling (filling_of a.now) (filling_of b.now) }
{
    match (a, b) {
        (Slot::Sig(a), Slot::Sig(b)) => a.bytes == b.bytes,
        (Slot::Preimage(a), Slot::Preimage(b)) => *a == *b,
        (Slot::Exact(a), Slot::Exact(b)) => a.item.equals(&b.item),
        _ => false,
    }
}

fn same_slots(a: &[Slot], b: &[Slot]) -> bool
    ensures { result ≡ same_fillings (map filling_of a.now) (map filling_of b.now) }
{
    let mut others = b;
    for slot in a {
        let Some((other, rest)) = others.split_first() else {
            return false;
        };
        if !same_slot(slot, other) {
            return false;
        }
        others = rest;
    }
    others.is_empty()
}

// Tells the proof what the type of a claim keeps of its script.
fn keeps(claim: &Claim)
    ensures { IsChecked claim.now.ways }
{
    let _ = claim.path();
}

/// Tells the proof what the type of claims keeps.
pub(crate) fn hold_whole(claims: &[Claim])
    ensures { AllByRecursion IsWhole claims.now }
{
    for claim in claims {
        let _ = claim.path();
    }
}

// Whether a claim has an open shell, and claims what another claim does, in the same way.
fn is_alike(kept: &Claim, claim: &Claim) -> bool
    ensures { result ≡ (same_claimable (claimed_by claim.now) (claimed_by kept.now) && not
        (is_fixed claim.now.shell)) }
{
    same_place(claim.place(), kept.place())
        && claim.script() == kept.script()
        && claim.index() == kept.index()
        && same_slots(claim.slots(), kept.slots())
        && matches!(claim.shell(), Shell::Open)
}

// The same for claims, which were accepted on checked scripts.
fn is_claim_on(kept: &Claim, claim: &Claim) -> bool
    ensures value { result ≡ is_claim_on (claimed_by kept.now) claim.now }
    ensures exact { kept.now.shell ≡ Open → IsTrue result
        → IsClaimOn (claimed_by kept.now) claim.now }
{
    keeps(kept);
    keeps(claim);
    // Tells the proof that the claim was judged on this path.
    let _ = claim.path();
    is_alike(kept, claim)
}

// Whether claims, one by one, claim what others do, in the same ways.
fn are_claims_on(kept: &[Claim], claims: &[Claim]) -> bool
    ensures value { result ≡ all_match (λ k c. is_claim_on (claimed_by k) c) kept.now claims.now }
    ensures exact { All (λ k. k.shell ≡ Open) kept.now → IsTrue result
        → AreClaimsOn (map claimed_by kept.now) claims.now }
{
    let mut others = claims;
    for one in kept {
        let Some((claim, rest)) = others.split_first() else {
            return false;
        };
        if !is_claim_on(one, claim) {
            return false;
        }
        others = rest;
    }
    others.is_empty()
}

/// Whether the claims are those of the set, in its order: accepted claims on all that the state's commitment lets its owner's peer claim, and on nothing else.
pub fn is_set(set: &PenaltySet, claims: &[Claim]) -> bool
    ensures value { result ≡ are_claims_on (claimable_of set.now.state) claims.now }
    ensures exact { IsTrue result ↔ AreClaimsOn (claimable_of set.now.state) claims.now }
{
    let kept = set.claims();
    are_claims_on(kept, claims)
}
