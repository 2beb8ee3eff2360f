// The witnesses that spend outputs for which both sides sign.

ghost use Rattle.std.specs.Prelude.{◌≡◌, ◌<◌, ◌≤◌, [], ◌∷◌, ◌++◌, length, IfOk};
ghost use Rattle.script.specs.declared.limits.TheConstants.{LOCKTIME_THRESHOLD as locktime_threshold};
ghost use Rattle.tx.specs.declared.limits.TheConstants.{MAX_BYTES as max_bytes};
ghost use Rattle.forms.specs.Forms.{funding_form};
ghost use Rattle.commit.specs.Keys.{bytes_of};
ghost use Rattle.commit.specs.Signing.{funding_script};
ghost use Rattle.commit.specs.Outputs.{htlc_script as htlc_script_of};
ghost use Rattle.penalty.specs.Claimable.{htlc_form};
ghost use Rattle.publish.specs.Published.{in_key_order};

use commit::{CommitmentKeys, HtlcOutput};
use forms::{Patterns, funding};
use lists::ByteString;
use paths::Checked;
use penalty::claiming::htlc_script;
use sighash::Token;
use std::alloc::{AllocError, Global};
use std::cmp::Ordering;
use terms::Terms;
use tx::Witness;

// The empty item that CHECKMULTISIG takes besides the signatures (BIP 147), and two tokens, the lowest first.
fn two_tokens(alloc: Global, lower: &Token, upper: &Token) -> Result<Witness, AllocError>
    ensures { IfOk result (λ w. w ≡ [] ∷ lower.now ∷ upper.now ∷ []) }
{
    let mut witness = Witness::new(alloc);
    witness.push_within_limit(ByteString::new(alloc))?;
    witness.push_within_limit(ByteString::from_slice(alloc, lower.bytes())?)?;
    witness.push_within_limit(ByteString::from_slice(alloc, upper.bytes())?)?;
    Ok(witness)
}

// The empty item and the tokens of both funding keys, that of the lesser key first.
fn funding_tokens(
    alloc: Global,
    terms: &Terms,
    of_a: &Token,
    of_b: &Token,
) -> Result<Witness, AllocError>
    ensures { IfOk result (λ w. w ≡ []
        ∷ in_key_order terms.now.a.bases.funding.bytes of_a.now terms.now.b.bases.funding.bytes
        of_b.now) }
{
    let a = terms.a.bases.funding;
    let b = terms.b.bases.funding;
    if b.bytes.cmp(&a.bytes) == Ordering::Less {
        two_tokens(alloc, of_b, of_a)
    } else {
        two_tokens(alloc, of_a, of_b)
    }
}

// The funding script, checked. The only error is that memory ran out.
fn checked_funding(alloc: Global, patterns: &Patterns, terms: &Terms) -> Result<Checked, AllocError>
    ensures { IfOk result (λ c. c ≡ funding_form terms.now.a.bases.funding.bytes
        terms.now.b.bases.funding.bytes) }
{
    funding(
        alloc,
        patterns,
        &terms.a.bases.funding,
        &terms.b.bases.funding,
    )
}

// The bytes of the funding script, the last item of the witness (BIP 141).
#[tactic(auto, unfolding(commit::specs::Signing::funding_script))]
fn funding_item(alloc: Global, patterns: &Patterns, terms: &Terms) -> Result<ByteString, AllocError>
    ensures value { IfOk result (λ s. s ≡ funding_script terms.now) }
    ensures short { IfOk result (λ s. length s ≤ max_bytes) }
{
    let checked = checked_funding(alloc, patterns, terms)?;
    ByteString::from_slice(alloc, checked.script().bytes())
}

/// The witness that spends the funding output, with the token of each side. The only error is that memory ran out.
pub(crate) fn funding_witness(
    alloc: Global,
    patterns: &Patterns,
    terms: &Terms,
    of_a: &Token,
    of_b: &Token,
) -> Result<Witness, AllocError>
    ensures { IfOk result (λ w. w ≡ ([]
        ∷ in_key_order terms.now.a.bases.funding.bytes of_a.now terms.now.b.bases.funding.bytes
        of_b.now) ++ funding_script terms.now ∷ []) }
{
    let script = funding_item(alloc, patterns, terms)?;
    let mut witness = funding_tokens(alloc, terms, of_a, of_b)?;
    witness.push_within_limit(script)?;
    Ok(witness)
}

// The script of an HTLC's output, checked. The only error is that memory ran out.
fn checked_htlc(
    alloc: Global,
    patterns: &Patterns,
    keys: &CommitmentKeys,
    htlc: &HtlcOutput,
) -> Result<Checked, AllocError>
    requires { htlc.now.htlc.expiry_height < locktime_threshold }
    ensures { IfOk result (λ c. c ≡ htlc_form
        (bytes_of keys.now) htlc.now.direction htlc.now.htlc) }
{
    htlc_script(alloc, patterns, keys, htlc.direction, &htlc.htlc)
}

// The bytes of an HTLC's script, the last item of the witness (BIP 141).
#[tactic(auto, using(crate::proofs::Witnessed::spelt))]
fn htlc_item(
    alloc: Global,
    patterns: &Patterns,
    keys: &CommitmentKeys,
    htlc: &HtlcOutput,
) -> Result<ByteString, AllocError>
    requires { htlc.now.htlc.expiry_height < locktime_threshold }
    ensures value { IfOk result (λ s. s ≡ htlc_script_of
        (bytes_of keys.now) htlc.now.direction htlc.now.htlc) }
    ensures short { IfOk result (λ s. length s ≤ max_bytes) }
{
    let checked = checked_htlc(alloc, patterns, keys, htlc)?;
    ByteString::from_slice(alloc, checked.script().bytes())
}

/// The witness of an HTLC transaction: both tokens, what its branch takes, and the script. The only error is that memory ran out.
pub(crate) fn htlc_witness(
    alloc: Global,
    patterns: &Patterns,
    keys: &CommitmentKeys,
    htlc: &HtlcOutput,
    remote: &Token,
    local: &Token,
    item: ByteString,
) -> Result<Witness, AllocError>
    requires height { htlc.now.htlc.expiry_height < locktime_threshold }
    requires short { length item ≤ 32 }
    ensures { IfOk result (λ w. w ≡ [] ∷ remote.now ∷ local.now ∷ item ∷ htlc_script_of
        (bytes_of keys.now) htlc.now.direction htlc.now.htlc ∷ []) }
{
    let mut witness = two_tokens(alloc, remote, local)?;
    witness.push_within_limit(item)?;
    witness.push_within_limit(htlc_item(alloc, patterns, keys, htlc)?)?;
    Ok(witness)
}
