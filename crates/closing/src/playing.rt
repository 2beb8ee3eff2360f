// Plays a claim from its script to the block.

use crate::attempts::{Attempt, attempt_of, outputs};
use crate::cases::{Case, Claimed, Slip};
use crate::funded::{PREIMAGE, script_of};
use crate::parties::Parties;
use crate::slips::spoil;
use chain::{Chain, Coins};
use claim::{Claim, accept};
use filling::{FillError, Filled, fill};
use keys::Signer;
use page::Page;
use paths::Checked;
use std::alloc::Global;
use std::fmt::Display;
use tx::{MAX_OUTPUTS, Tx};

/// Shows a refusal, with its number.
pub fn show_refusal<D: Display>(page: &mut Page, what: &str, number: u8, refusal: &D) {
    page.count(what, u64::from(number));
    page.push(" ");
    page.show(refusal);
    page.push("\n");
}

/// The claim of an attempt. Where it is refused it shows why, and returns `None`.
fn accepted(page: &mut Page, checked: Checked, attempt: Attempt) -> Option<Claim> {
    let Attempt {
        path,
        slots,
        place,
        shell,
    } = attempt;
    match accept(page.alloc(), checked, path, slots, place, shell) {
        Ok(claim) => Some(claim),
        Err(refusal) => {
            show_refusal(page, "not accepted, ", refusal.number(), &refusal);
            None
        }
    }
}

/// The claim of a case, on a script.
fn claim_on(
    page: &mut Page,
    parties: &Parties,
    case: &Case,
    checked: Checked,
    chain: &mut Chain,
) -> Option<Claim> {
    match attempt_of(page.alloc(), parties, case, checked.script().bytes(), chain) {
        Some(attempt) => accepted(page, checked, attempt),
        None => {
            page.fail();
            None
        }
    }
}

/// The claim of a case. Where it is refused it shows why, and returns `None`.
pub fn claim_of(
    page: &mut Page,
    parties: &Parties,
    case: &Case,
    chain: &mut Chain,
) -> Option<Claim> {
    match script_of(page.alloc(), parties, case.claimed) {
        Ok(checked) => claim_on(page, parties, case, checked, chain),
        Err(_) => {
            page.fail();
            None
        }
    }
}

/// The signer of the claimant: the owner of the commitment, or its peer.
fn signer_of<'a>(parties: &'a Parties, case: &Case) -> &'a Signer {
    match (case.claimed, case.slip) {
        (_, Slip::OtherSigner) => &parties.owner,
        (Claimed::Delayed | Claimed::HtlcTimeout | Claimed::HtlcSuccess | Claimed::Funding, _) => {
            &parties.owner
        }
        _ => &parties.peer,
    }
}

/// The claim's filling, or why it is refused.
fn fill_of(
    alloc: Global,
    parties: &Parties,
    case: &Case,
    claim: &Claim,
) -> Result<Filled, FillError> {
    let preimage = match case.slip {
        Slip::OtherPreimage => [6; 32],
        _ => PREIMAGE,
    };
    match outputs(alloc, 90_000) {
        Some(outputs) if outputs.len() <= MAX_OUTPUTS => {
            fill(
                alloc,
                &[claim],
                outputs,
                signer_of(parties, case),
                &[preimage],
            )
        }
        _ => Err(FillError::NoMemory),
    }
}

/// What a claim needs of the block that takes it: its age, in blocks, and the block's height.
#[derive(Clone, Copy)]
pub struct Needs {
    age: u16,
    height: u64,
}

/// What a claim needs of its block.
pub fn needs_of(claim: &Claim) -> Needs {
    Needs {
        age: claim.needs_age(),
        height: claim.needs_height(),
    }
}

/// Adds empty blocks, until the next block has this height. Returns whether there was memory.
fn raise(chain: &mut Chain, alloc: Global, height: u64) -> bool {
    for _ in chain.height()..height.saturating_sub(1) {
        if chain.connect(Vec::new(alloc)).is_err() {
            return false;
        }
    }
    true
}

/// Connects a block, and shows the outcome with what its claim needs.
fn connect_block(page: &mut Page, needs: Needs, block: Vec<Tx>, chain: &mut Chain) {
    match chain.connect(block) {
        Ok(_) => {
            page.count("connected, age ", u64::from(needs.age));
            page.count(" height ", needs.height);
            page.push("\n");
        }
        Err(error) => {
            let refusal = error.refusal;
            show_refusal(page, "not connected, ", refusal.number(), &refusal);
        }
    }
}

/// Connects the transaction of a claim in a block at this height, and shows the outcome.
pub fn connect(page: &mut Page, height: u64, needs: Needs, tx: Tx, chain: &mut Chain) {
    let mut block = Vec::new(page.alloc());
    if block.push(tx).is_err() || !raise(chain, page.alloc(), height) {
        return page.fail();
    }
    connect_block(page, needs, block, chain);
}

/// Shows the outcome of the transaction of a claim.
fn play_tx(page: &mut Page, case: &Case, needs: Needs, mut tx: Tx, chain: &mut Chain) {
    spoil(page.alloc(), case.slip, &mut tx);
    connect(page, case.height, needs, tx, chain);
}

/// Shows the outcome of the filling of a claim.
fn play_filled(
    page: &mut Page,
    case: &Case,
    needs: Needs,
    filled: Result<Filled, FillError>,
    chain: &mut Chain,
) {
    match filled {
        Ok(filled) => play_tx(page, case, needs, filled.into_tx(), chain),
        Err(refusal) => show_refusal(page, "not filled, ", refusal.number(), &refusal),
    }
}

/// Shows the outcome of a case on a chain.
fn play_on(page: &mut Page, parties: &Parties, case: &Case, chain: &mut Chain) {
    if let Some(claim) = claim_of(page, parties, case, chain) {
        let filled = fill_of(page.alloc(), parties, case, &claim);
        play_filled(page, case, needs_of(&claim), filled, chain);
    }
}

/// Shows the outcome of a case on a new chain.
pub fn play(page: &mut Page, parties: &Parties, case: &Case) {
    match Chain::new(page.alloc()) {
        Ok(mut chain) => play_on(page, parties, case, &mut chain),
        Err(_) => page.fail(),
    }
}
