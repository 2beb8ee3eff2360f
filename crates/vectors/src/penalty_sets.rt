//! Reads revoked states, one on each line, and prints what they let the owner's peer claim. Of each claim it prints the outpoint, the value, the program, the
//! path and the fills of its slots; then the transaction that takes all outputs of the commitment itself, or why there is none.
//!
//! A line has the owner, the number, the feerate, both balances in millisatoshis, and an HTLC in each further word: who offered it, its amount, its expiry, and
//! a byte that is repeated 32 times as its preimage. The expected output is from an independent script.

mod printing;
mod reading;
mod spending;

use forms::patterns;
use page::Page;
use penalty::{PenaltySet, RevokedState, StateError, Terms, penalties};
use printing::show_claims;
use reading::{Offers, signer_of, state_of, terms};
use spending::{spent, spent_twice};

/// Shows the transactions that take claims on a state.
fn show_spends(page: &mut Page, state: &RevokedState, set: &PenaltySet) {
    let mut signer = signer_of(page.alloc(), state.owner.other());
    if set.claims().is_empty() || signer.learn_secret(&state.secret).is_err() {
        return;
    }
    printing::show_spend(page, spent(page.alloc(), set, 0, &signer));
    printing::show_spend(page, spent(page.alloc(), set, 1, &signer));
    printing::show_spend(page, spent_twice(page.alloc(), set, &signer));
}

/// Shows what a state lets claim.
fn show_state(page: &mut Page, state: &RevokedState) {
    let Ok(patterns) = patterns(page.alloc()) else {
        page.fail();
        return;
    };
    match penalties(page.alloc(), &patterns, state) {
        Ok(set) => {
            show_claims(page, &set);
            show_spends(page, state, &set);
        }
        Err(_) => page.fail(),
    }
}

/// Shows what a state lets claim, or why there is none.
fn show_read(page: &mut Page, state: Result<RevokedState, StateError>) {
    match state {
        Ok(state) => show_state(page, &state),
        Err(refusal) => page.refuse(&refusal),
    }
}

/// Shows what the state of a line lets claim.
fn show_line(page: &mut Page, terms: &Terms, line: &str) {
    let mut offers = Offers::new(page.alloc());
    match offers.read(line) {
        Some(head) => show_read(page, state_of(terms, &head, offers)),
        None => page.push("refused BadLine\n"),
    }
}

/// Shows all lines.
pub fn show_all(page: &mut Page, lines: &str) {
    let Some(terms) = terms(page.alloc()) else {
        return page.fail();
    };
    for line in lines.lines() {
        show_line(page, &terms, line);
    }
}
