//! Steps, as words name them.

use crate::{number, short_number};
use channel::{Action, PairStep};
use digest::sha256;
use terms::Side;
use updates::OwnUpdate;

/// An offer of an amount in millisatoshis, up to an expiry.
fn offer_of(words: &str, preimage: &[u8; 32]) -> OwnUpdate {
    let (amount_msat, expiry_height) = words.split_once(' ').unwrap_or((words, ""));
    OwnUpdate::Offer {
        amount_msat: number(Some(amount_msat)),
        hash: sha256(preimage),
        expiry_height: short_number(Some(expiry_height)),
    }
}

/// The update of a name and the words after it. Its HTLCs have this preimage.
fn update_of(name: &str, words: &str, preimage: &[u8; 32]) -> Option<OwnUpdate> {
    if name == "offer" {
        Some(offer_of(words, preimage))
    } else if name == "fulfil" {
        Some(OwnUpdate::Fulfil {
            id: number(Some(words)),
            preimage: *preimage,
        })
    } else if name == "fail" {
        Some(OwnUpdate::Fail {
            id: number(Some(words)),
        })
    } else if name == "fee" {
        Some(OwnUpdate::SetFee {
            feerate_per_kw: short_number(Some(words)),
        })
    } else {
        None
    }
}

/// What the words after a step's side name.
fn action_of(words: &str, preimage: &[u8; 32]) -> Option<Action> {
    if words == "sign" {
        return Some(Action::Sign);
    }
    if words == "deliver" {
        return Some(Action::Deliver);
    }
    let (name, rest) = words.split_once(' ')?;
    Some(Action::Own(update_of(name, rest, preimage)?))
}

/// The step that words name.
pub fn step_of(words: &str, preimage: &[u8; 32]) -> Option<PairStep> {
    if words == "cut" {
        return Some(PairStep::Cut);
    }
    let (name, rest) = words.split_once(' ')?;
    let action = action_of(rest, preimage)?;
    if name == "A" {
        Some(PairStep::Turn {
            side: Side::A,
            action,
        })
    } else if name == "B" {
        Some(PairStep::Turn {
            side: Side::B,
            action,
        })
    } else {
        None
    }
}
