//! Claims as text.

use super::spending::Spend;
use claim::{Claim, Slot};
use filling::FillError;
use page::Page;
use penalty::PenaltySet;

fn write_slot(page: &mut Page, slot: &Slot) {
    match slot {
        Slot::Sig(key) => page.hex(" sig:", &key.bytes),
        Slot::Preimage(hash) => page.hex(" preimage:", hash),
        Slot::Exact(item) => page.hex(" exact:", item.item.bytes()),
    }
}

/// Shows a claim.
fn show_claim(page: &mut Page, claim: &Claim) {
    let place = claim.place();
    page.hex("", &place.outpoint.txid);
    page.count(":", u64::from(place.outpoint.index));
    page.count(" value ", place.value);
    page.hex(" program ", place.program.bytes());
    page.count(" path ", claim.index() as u64);
    for slot in claim.slots() {
        write_slot(page, slot);
    }
    page.push("\n");
}

/// Shows the claims of a set, a line each.
pub fn show_claims(page: &mut Page, set: &PenaltySet) {
    page.count("claims ", set.claims().len() as u64);
    page.push("\n");
    for claim in set.claims() {
        show_claim(page, claim);
    }
}

/// Shows the parts of a transaction.
fn show_parts(page: &mut Page, spend: &Spend) {
    page.hex("filled ", &spend.id);
    page.count(" inputs ", spend.inputs);
    page.count(" lock ", u64::from(spend.lock_time));
    page.hex(" bytes ", &spend.hash);
    page.push("\n");
}

/// Shows the transaction that takes claims, or why there is none.
pub fn show_spend(page: &mut Page, spend: Result<Spend, FillError>) {
    match spend {
        Ok(spend) => show_parts(page, &spend),
        Err(refusal) => page.refuse(&refusal),
    }
}
