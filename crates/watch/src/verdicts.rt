//! Which commitment a transaction is.

ghost use Rattle.std.specs.Prelude.{◌≡◌, ◌||◌};
ghost use Rattle.penalty.specs.Claimable.{commitment_in};
ghost use Rattle.watch.specs.Verdicts.{number_in, is_of, is_of_next, revoked_by, verdict_of};

use resolve::{Known, KnownCommitment, RevokedCommitment, Verdict, revoked_at};
use terms::{Terms, mask, number_of};
use tx::{Tx, txid};

// Whether an id is that of a commitment.
fn is_of(id: &[u8; 32], known: &KnownCommitment) -> bool
    ensures { result ≡ is_of id.now known.now }
{
    known.commitment().id() == id
}

fn is_of_next(id: &[u8; 32], next: &Option<KnownCommitment>) -> bool
    ensures { result ≡ is_of_next id.now next.now }
{
    match next {
        None => false,
        Some(known) => is_of(id, known),
    }
}

// Whether an id is that of a revoked commitment.
fn is_of_revoked(id: &[u8; 32], revoked: &RevokedCommitment) -> bool
    ensures { result ≡ is_of id.now (commitment_in revoked.now.state) }
{
    revoked.id == *id
}

// The number that a transaction carries.
fn number_in(terms: &Terms, tx: &Tx) -> Option<u64>
    ensures { result ≡ number_in terms.now tx.now }
{
    // The proof learns here that the mask has 48 bits.
    let _ = mask(terms);
    number_of(terms, tx)
}

// Which of the revoked commitments a transaction of this id is. Only the one of this number is looked up.
fn revoked_by(known: &Known, id: &[u8; 32], number: Option<u64>) -> Verdict
    ensures { result ≡ revoked_by known.now id.now number }
{
    let Some(n) = number else {
        return Verdict::Unknown;
    };
    match revoked_at(known, n) {
        Some(revoked) if is_of_revoked(id, revoked) => Verdict::Revoked(n),
        _ => Verdict::Unknown,
    }
}

/// Whether an id is that of one's own newest commitment, the peer's newest, or the peer's next.
pub(crate) fn is_current(known: &Known, id: &[u8; 32]) -> bool
    ensures { result ≡ (is_of id.now known.now.own.commitment || is_of id.now known.now.theirs
        || is_of_next id.now known.now.next) }
{
    is_of(id, &known.own.commitment) || is_of(id, &known.theirs) || is_of_next(id, &known.next)
}

/// Which commitment a transaction is, by its id. It is the first match of one's own newest, the peer's newest, the peer's next, and the revoked one
/// whose number the transaction carries (BOLT 3, "Commitment Transaction"). `Unknown` if none has the id. It allocates nothing.
#[tactic(auto, unfolding(crate::specs::Verdicts::verdict_of))]
pub fn verdict(known: &Known, tx: &Tx) -> Verdict
    ensures { result ≡ verdict_of known.now tx.now }
{
    let id = txid(tx);
    if is_of(&id, &known.own.commitment) {
        return Verdict::Ours;
    }
    if is_of(&id, &known.theirs) {
        return Verdict::Theirs;
    }
    if is_of_next(&id, &known.next) {
        return Verdict::TheirsNext;
    }
    revoked_by(known, &id, number_in(&known.terms, tx))
}
