//! The dump of a history: a JSON text (RFC 8259) from which the same history is loaded.

ghost use Rattle.std.specs.Prelude.{◌≡◌, true, Some, Ok, IfOk, string_bytes};
ghost use Rattle.std.specs.List.{AllByRecursion};
ghost use Rattle.serde_json.specs.Read.{read};
ghost use Rattle.serde_json.specs.View.{view};
ghost use Rattle.claim.specs.Claims.{IsWhole};
ghost use Rattle.channel.specs.Tokens.{peer_tokens};
ghost use Rattle.texts.specs.declared.calls.PlainCall.TheVariants.{Step as PlainStepping};
ghost use Rattle.texts.specs.Calls.{call_of as call_in};
ghost use Rattle.book.specs.Accepted.{all_accepted};
ghost use Rattle.book_dump.specs.Dumping.{plain_party, plain_terms, plain_opening, plain_step, plain_call, step_data, call_data, history_entry_data, is_close, any_close, history_data, dump_of};
ghost use Rattle.book_dump.specs.Loaded.{loaded};
ghost use Rattle.book_dump.specs.Again.{HasWholeClaims, HasStepTokens, HasTokens, ComesBack};

use book::{Call, Entry, Opening, Step};
use claim::Claim;
use serde_json::Value;
use std::alloc::{AllocError, Global};
use terms::{Party, ProposedParty, ProposedTerms, Terms};
use texts::{
    PlainOpening, WriteValue, write_close, write_dump, write_entry, write_keep, write_own,
    write_receive, write_release, write_revoke, write_sign,
};
use updates::PeerStep;

fn plain_party(party: &Party) -> ProposedParty
    ensures { result ≡ plain_party party.now }
{
    ProposedParty {
        dust_sat: party.dust_sat,
        delay_blocks: party.delay_blocks,
        minimum_msat: party.minimum_msat,
        start_msat: party.start_msat,
    }
}

fn plain_terms(terms: &Terms) -> ProposedTerms
    ensures { result ≡ plain_terms terms.now }
{
    ProposedTerms {
        capacity_sat: terms.capacity_sat,
        opener: terms.opener,
        feerate_per_kw: terms.feerate_per_kw,
        a: plain_party(&terms.a),
        b: plain_party(&terms.b),
    }
}

// An opening without its own base keys, which derive from its seed.
fn plain_opening(opening: &Opening) -> PlainOpening
    ensures { result ≡ plain_opening opening.now }
{
    let peer = opening.terms.party(opening.side.other());
    PlainOpening {
        terms: plain_terms(&opening.terms),
        funding: opening.terms.funding,
        side: opening.side,
        seed: opening.seed,
        bases: peer.bases,
        first_point: opening.first_point,
        next_point: opening.next_point,
        token: opening.token,
    }
}

fn peer_step_value(alloc: Global, channel: u64, step: &PeerStep) -> Result<Value, AllocError>
    ensures form { IfOk result (λ v. view v ≡ step_data channel (Step.Peer step.now)) }
    ensures back { IfOk result (λ _. HasStepTokens (Step.Peer step.now)
        → call_in (step_data channel (Step.Peer step.now)) ≡ Some
        (PlainStepping channel (plain_step (Step.Peer step.now)))) }
{
    match step {
        PeerStep::Update(update) => write_receive(alloc, channel, update.write_value(alloc)?),
        PeerStep::CommitmentSigned(tokens) => {
            write_receive(alloc, channel, tokens.write_value(alloc)?)
        }
    }
}

fn step_value(alloc: Global, channel: u64, step: &Step) -> Result<Value, AllocError>
    ensures form { IfOk result (λ v. view v ≡ step_data channel step.now) }
    ensures back { IfOk result (λ _. HasStepTokens step.now
        → call_in (step_data channel step.now) ≡ Some
        (PlainStepping channel (plain_step step.now))) }
{
    match step {
        Step::Own(update) => write_own(alloc, channel, update),
        Step::Peer(step) => peer_step_value(alloc, channel, step),
    }
}

// Tells the proof what the type of a claim keeps.
fn keeps(claim: &Claim)
    ensures { IsWhole claim.now }
{
    let _ = claim.path();
}

// The same for each claim.
fn each_keeps(claims: &[Claim])
    ensures { AllByRecursion IsWhole claims.now }
{
    for claim in claims {
        keeps(claim);
    }
}

// Writes a call as JSON.
fn call_value(alloc: Global, call: &Call) -> Result<Value, AllocError>
    ensures form { IfOk result (λ v. view v ≡ call_data call.now) }
    ensures back { IfOk result (λ _. HasTokens call.now
        → call_in (call_data call.now) ≡ Some (plain_call call.now)) }
    ensures whole { IfOk result (λ _. HasWholeClaims call.now) }
{
    match call {
        Call::Open(opening) => plain_opening(opening).write_value(alloc),
        Call::Step { channel, step } => step_value(alloc, *channel, step),
        Call::Sign { channel } => write_sign(alloc, *channel),
        Call::Revoke {
            channel,
            revocation,
        } => write_revoke(alloc, *channel, revocation),
        Call::Keep {
            channel,
            number,
            claims,
        } => {
            each_keeps(claims.values());
            write_keep(alloc, *channel, *number, claims.values())
        }
        Call::Release { channel, batch } => {
            each_keeps(batch.claims.values());
            write_release(
                alloc,
                *channel,
                batch.claims.values(),
                batch.outputs.values(),
                batch.preimages.values(),
            )
        }
        Call::Close { channel } => write_close(alloc, *channel),
    }
}

// Writes an entry as JSON.
fn entry_value(alloc: Global, entry: &Entry) -> Result<Value, AllocError>
    ensures form { IfOk result (λ v. view v ≡ history_entry_data entry.now) }
    ensures back { IfOk result (λ _. ComesBack entry.now) }
{
    let call = call_value(alloc, &entry.call)?;
    write_entry(alloc, call, entry.seat)
}

// Whether a call closes a channel.
fn is_close(call: &Call) -> bool
    ensures { result ≡ is_close call.now }
{
    matches!(call, Call::Close { .. })
}

// Whether a call of a history closes a channel.
fn any_close(history: &[Entry]) -> bool
    ensures { result ≡ any_close history.now }
{
    history.iter().any(|entry| is_close(&entry.call))
}

// Writes a history as JSON.
fn history_value(alloc: Global, history: &[Entry]) -> Result<Value, AllocError>
    ensures form { IfOk result (λ v. view v ≡ history_data history.now) }
    ensures back { IfOk result (λ _. AllByRecursion ComesBack history.now) }
{
    let mut entries = Vec::new(alloc);
    for entry in history {
        entries.push(entry_value(alloc, entry)?)?;
    }
    write_dump(alloc, entries, any_close(history))
}

/// Dumps a history, the oldest entry first: JSON without whitespace, the members of each object in the order of their names. Its version is 3 where a call closes a
/// channel, else 2. The only error is that memory ran out.
#[tactic(auto, unfolding(crate::specs::Dumping::dump_of))]
pub fn dump(alloc: Global, history: &[Entry]) -> Result<String, AllocError>
    ensures text { IfOk result (λ text. string_bytes text ≡ dump_of history.now) }

    // What the text is read as.
    ensures reads { IfOk result (λ text. read (string_bytes text) ≡ Some
        (history_data history.now)) }

    // And loaded as, where each entry is accepted after those before it.
    ensures loads { IfOk result (λ text. all_accepted peer_tokens history.now ≡ true
        → loaded peer_tokens (string_bytes text) ≡ Ok history.now) }
{
    let value = history_value(alloc, history)?;
    value.to_string(alloc)
}
