// What is shown of a side: its commitment, the claims that are due by each verdict, and transactions that take claims.

use crate::dues::known::known;
use crate::dues::publishing::{closing_tx, fill_some};
use crate::dues::settings::Setting;
use chain::{Chain, Coins};
use claim::{Claim, Slot};
use filling::{FillError, Filled};
use page::Page;
use resolve::{Known, Verdict, due_claims};
use std::alloc::Global;
use terms::Side;
use tx::{Tx, txid};

/// The verdicts. Commitment 1 is not among those that B revoked.
const VERDICTS: [Verdict; 6] = [
    Verdict::Ours,
    Verdict::Theirs,
    Verdict::TheirsNext,
    Verdict::Revoked(0),
    Verdict::Revoked(1),
    Verdict::Unknown,
];

/// The due claims that are taken.
#[derive(Clone, Copy)]
pub enum Taken {
    FirstTwo,
    /// The first claim whose first slot is a preimage.
    ByPreimage,
    /// The claims on a revoked commitment with an HTLC.
    Penalties,
}

/// What to show.
#[derive(Clone, Copy)]
pub enum Shown {
    /// The number of claims that are due by each verdict.
    Counts,
    /// The same, after the next commitment of the peer is dropped.
    CountsWithoutNext,
    /// The side's newest commitment.
    Commitment,
    /// The transactions that take claims due by a verdict.
    Claims(Verdict, Taken),
}

/// What to show of a side. The newest commitments of both sides have the number `newest`.
#[derive(Clone, Copy)]
pub struct Step {
    pub what: &'static str,
    pub side: Side,
    pub newest: u64,
    pub preimage: Option<[u8; 32]>,
    pub shown: Shown,
    /// Whether the transaction is mined in a block.
    pub is_mined: bool,
}

/// The number of claims that are due by a verdict; `None` if memory ran out.
fn count(alloc: Global, known: &Known, verdict: Verdict) -> Option<u64> {
    match due_claims(alloc, known, verdict) {
        Ok(claims) => Some(claims.len() as u64),
        Err(_) => None,
    }
}

/// Shows the number of claims that are due by a verdict.
fn show_count(page: &mut Page, what: &str, known: &Known, verdict: Verdict) {
    page.push(what);
    page.push(", ");
    page.debug(&verdict);
    match count(page.alloc(), known, verdict) {
        Some(count) => page.count(": ", count),
        None => page.fail(),
    }
    page.push(" claims due\n");
}

/// Shows the number of claims that are due by each verdict.
fn show_counts(page: &mut Page, what: &str, known: &Known) {
    for verdict in &VERDICTS {
        show_count(page, what, known, *verdict);
    }
}

/// Shows a field of a transaction.
fn show_field(page: &mut Page, what: &str, field: &str, number: u32) {
    page.push(what);
    page.count(field, u64::from(number));
    page.push("\n");
}

/// Shows the id of a transaction, in the hash's own byte order.
fn show_id(page: &mut Page, tx: &Tx) {
    page.hex("    ", &txid(tx));
    page.push("\n");
}

/// Shows a transaction of claims.
fn show_tx(page: &mut Page, what: &str, tx: &Tx) {
    show_field(page, what, ": version ", tx.version());
    show_field(page, what, ": lock time ", tx.lock_time());
    for input in tx.inputs() {
        show_field(page, what, ": sequence ", input.sequence);
    }
    show_id(page, tx);
}

/// Shows a filling, and returns its transaction, if there is one.
fn show_filling(page: &mut Page, what: &str, filling: Result<Filled, FillError>) -> Option<Tx> {
    match filling {
        Ok(filled) => {
            show_tx(page, what, filled.tx());
            Some(filled.into_tx())
        }
        Err(refusal) => {
            page.push(what);
            page.push(": ");
            page.show(&refusal);
            page.push("\n");
            None
        }
    }
}

/// Whether the first slot of a claim is a preimage.
fn is_by_preimage(claim: &Claim) -> bool {
    matches!(claim.slots().first(), Some(Slot::Preimage(_)))
}

/// The place of the first claim with a preimage, and its value.
fn by_preimage(claims: &[Claim]) -> (usize, u64) {
    let mut place: usize = 0;
    for claim in claims {
        if is_by_preimage(claim) {
            return (place, claim.place().value);
        }
        place = place.saturating_add(1);
    }
    (place, 0)
}

/// Shows the filling of the claims at some places into one output of this value.
fn show_some(
    page: &mut Page,
    what: &str,
    claims: &[Claim],
    places: &[usize],
    value: u64,
    known: &Known,
) -> Option<Tx> {
    let filling = fill_some(page.alloc(), claims, places, value, known);
    show_filling(page, what, filling)
}

/// Shows transactions that take claims, and returns the last one.
fn show_taken(
    page: &mut Page,
    what: &str,
    claims: &[Claim],
    taken: Taken,
    known: &Known,
) -> Option<Tx> {
    match taken {
        Taken::FirstTwo => show_some(page, what, claims, &[0, 1], 11_000, known),
        Taken::ByPreimage => {
            let (place, value) = by_preimage(claims);
            show_some(page, what, claims, &[place], value, known)
        }
        Taken::Penalties => {
            drop(show_some(page, "one twice", claims, &[0, 0], 10_000, known));
            drop(show_some(page, "a satoshi more", claims, &[0, 2, 3], 99_105, known));
            show_some(page, what, claims, &[0, 2, 3], 99_104, known)
        }
    }
}

/// Shows the transactions that take claims due by a verdict, and returns the last one.
fn show_due(
    page: &mut Page,
    what: &str,
    known: &Known,
    verdict: Verdict,
    taken: Taken,
) -> Option<Tx> {
    match due_claims(page.alloc(), known, verdict) {
        Ok(claims) => show_taken(page, what, claims.as_slice(), taken, known),
        Err(_) => None,
    }
}

/// Shows the side's newest commitment, with both signatures, and returns it.
fn show_commitment(page: &mut Page, known: &Known) -> Option<Tx> {
    let tx = closing_tx(page.alloc(), known)?;
    show_id(page, &tx);
    Some(tx)
}

/// Shows what a step asks for, and returns the last transaction that is shown.
fn show_known(page: &mut Page, step: &Step, known: &mut Known) -> Option<Tx> {
    match step.shown {
        Shown::Counts => {
            show_counts(page, step.what, known);
            None
        }
        Shown::CountsWithoutNext => {
            drop(known.next.take());
            show_counts(page, step.what, known);
            None
        }
        Shown::Commitment => show_commitment(page, known),
        Shown::Claims(verdict, taken) => show_due(page, step.what, known, verdict, taken),
    }
}

/// Shows what a step asks for of its side, and returns the last transaction that is shown.
fn show_step(page: &mut Page, setting: &Setting, step: &Step) -> Option<Tx> {
    match known(page.alloc(), setting, step.side, step.newest, step.preimage) {
        Some(mut known) => {
            let shown = show_known(page, step, &mut known);
            drop(known);
            shown
        }
        None => {
            page.fail();
            None
        }
    }
}

/// Connects a block, and shows its height.
fn connect(page: &mut Page, what: &str, block: Vec<Tx>, chain: &mut Chain) {
    page.push(what);
    match chain.connect(block) {
        Ok(height) => page.count(": height ", height),
        Err(_) => page.fail(),
    }
    page.push("\n");
}

/// Mines a transaction in a block.
fn mine(page: &mut Page, what: &str, tx: Tx, chain: &mut Chain) {
    let mut block = Vec::new(page.alloc());
    if block.push(tx).is_err() {
        page.fail();
    }
    connect(page, what, block, chain);
}

/// Plays a step in a channel whose funding output stands on a chain.
pub fn play_step(page: &mut Page, setting: &Setting, step: &Step, chain: &mut Chain) {
    match show_step(page, setting, step) {
        Some(tx) if step.is_mined => mine(page, step.what, tx, chain),
        _ => {}
    }
}
