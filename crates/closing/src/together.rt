// Several claims in one transaction, and the order of the refusals.

use crate::attempts::outputs;
use crate::cases::{Case, Claimed, Slip};
use crate::parties::Parties;
use crate::playing::{Needs, claim_of, connect, needs_of, show_refusal};
use chain::Chain;
use claim::Claim;
use filling::{FillError, Filled, fill};
use keys::Signer;
use page::Page;
use std::alloc::Global;
use tx::{MAX_INPUTS, MAX_OUTPUTS, Tx, TxOut};

/// The claims that are taken together. Each is accepted by itself.
const KINDS: [Claimed; 4] = [
    Claimed::Penalty,
    Claimed::DirectTimeout,
    Claimed::DirectPreimage,
    Claimed::HtlcSuccess,
];

/// Some of those claims, by their places in that list, and one output of this value.
#[derive(Clone, Copy)]
struct Try {
    what: &'static str,
    places: &'static [usize],
    value: u64,
}

/// What is refused. Each row mends what is wrong in the row before it.
const REFUSALS: [Try; 5] = [
    Try {
        what: "a fixed claim beside one on its outpoint: ",
        places: &[3, 3],
        value: 500_000,
    },
    Try {
        what: "one outpoint twice: ",
        places: &[0, 2, 0],
        value: 500_000,
    },
    Try {
        what: "outputs of a satoshi more: ",
        places: &[0, 2],
        value: 200_001,
    },
    Try {
        what: "no right and then no preimage: ",
        places: &[0, 2],
        value: 200_000,
    },
    Try {
        what: "no preimage and then no right: ",
        places: &[2, 0],
        value: 200_000,
    },
];

/// The three claims that are taken.
const THREE: Try = Try {
    what: "three claims: ",
    places: &[0, 1, 2],
    value: 300_000,
};

/// Appends a claim with nothing wrong, on a new output of the chain.
fn push_claim(
    page: &mut Page,
    parties: &Parties,
    claimed: Claimed,
    chain: &mut Chain,
    claims: &mut Vec<Claim>,
) {
    let case = Case {
        claimed,
        slip: Slip::None,
        height: 1,
    };
    if let Some(claim) = claim_of(page, parties, &case, chain) {
        if claims.push(claim).is_err() {
            page.fail();
        }
    }
}

/// The filling of claims into these outputs, or why it is refused.
fn filled(
    alloc: Global,
    claims: &[&Claim],
    outputs: Vec<TxOut>,
    signer: &Signer,
    preimages: &[[u8; 32]],
) -> Result<Filled, FillError> {
    if claims.is_empty() || claims.len() > MAX_INPUTS || outputs.len() > MAX_OUTPUTS {
        return Err(FillError::NoMemory);
    }
    fill(alloc, claims, outputs, signer, preimages)
}

/// The filling of the claims at some places, or why it is refused.
fn fill_some(
    alloc: Global,
    claims: &[Claim],
    tried: &Try,
    signer: &Signer,
    preimages: &[[u8; 32]],
) -> Result<Filled, FillError> {
    let mut some = Vec::new(alloc);
    for place in tried.places {
        if let Some(claim) = claims.get(*place) {
            if some.push(claim).is_err() {
                return Err(FillError::NoMemory);
            }
        }
    }
    match outputs(alloc, tried.value) {
        Some(outputs) => filled(alloc, some.as_slice(), outputs, signer, preimages),
        None => Err(FillError::NoMemory),
    }
}

/// Shows why a filling is refused.
fn show_filling(page: &mut Page, filled: Result<Filled, FillError>) {
    match filled {
        Ok(_) => page.push("filled\n"),
        Err(refusal) => show_refusal(page, "not filled, ", refusal.number(), &refusal),
    }
}

/// Shows the refusals in order.
fn show_refusals(page: &mut Page, owner: &Signer, claims: &[Claim]) {
    for tried in &REFUSALS {
        page.push(tried.what);
        let filled = fill_some(page.alloc(), claims, tried, owner, &[[6; 32]]);
        show_filling(page, filled);
    }
}

/// Shows the parts of a transaction, and the outcome of connecting it.
fn show_tx(page: &mut Page, needs: Needs, tx: Tx, chain: &mut Chain) {
    page.push(THREE.what);
    page.show(&tx.inputs().len());
    page.count(" inputs, lock time ", u64::from(tx.lock_time()));
    page.push("\nthree claims in block 501: ");
    connect(page, 501, needs, tx, chain);
}

/// Shows the result of three claims in one transaction.
fn show_three(page: &mut Page, needs: Needs, filled: Result<Filled, FillError>, chain: &mut Chain) {
    match filled {
        Ok(filled) => show_tx(page, needs, filled.into_tx(), chain),
        Err(_) => page.fail(),
    }
}

/// Shows the results of several claims, on outputs of a chain.
fn show_claims(page: &mut Page, parties: &Parties, claims: &[Claim], chain: &mut Chain) {
    show_refusals(page, &parties.owner, claims);
    let Some(timeout) = claims.get(1) else {
        return page.fail();
    };
    let preimages = [[6; 32], crate::funded::PREIMAGE];
    let filled = fill_some(page.alloc(), claims, &THREE, &parties.peer, &preimages);
    show_three(page, needs_of(timeout), filled, chain);
}

/// Shows the results of several claims in one transaction.
fn show_on(page: &mut Page, parties: &Parties, chain: &mut Chain) {
    let mut claims = Vec::new(page.alloc());
    for claimed in &KINDS {
        push_claim(page, parties, *claimed, chain, &mut claims);
    }
    show_claims(page, parties, claims.as_slice(), chain);
}

/// Shows the results of several claims in one transaction, on a new chain.
pub fn show_all(page: &mut Page, parties: &Parties) {
    match Chain::new(page.alloc()) {
        Ok(mut chain) => show_on(page, parties, &mut chain),
        Err(_) => page.fail(),
    }
}
