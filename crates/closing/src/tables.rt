// Each claim with nothing wrong, and then with one thing wrong.

use crate::cases::{Case, Claimed, Slip};
use crate::parties::Parties;
use crate::playing::play;
use page::Page;

/// The outputs that are claimed, in order.
const CLAIMED: [Claimed; 10] = [
    Claimed::Penalty,
    Claimed::Delayed,
    Claimed::OfferedPenalty,
    Claimed::ReceivedPenalty,
    Claimed::DirectPreimage,
    Claimed::DirectTimeout,
    Claimed::KeyHash,
    Claimed::HtlcTimeout,
    Claimed::HtlcSuccess,
    Claimed::Funding,
];

/// The slips of each claim in turn, with the height of the block that is to take it.
const PENALTY: [(Slip, u64); 7] = [
    (Slip::None, 1),
    (Slip::OtherToken, 1),
    (Slip::OtherSigner, 1),
    (Slip::OtherPath, 1),
    (Slip::OtherSlots, 1),
    (Slip::OtherProgram, 1),
    (Slip::OtherFlag, 1),
];

const DELAYED: [(Slip, u64); 3] = [
    (Slip::None, 144),
    (Slip::None, 143),
    (Slip::OtherToken, 144),
];

const KEY_ALONE: [(Slip, u64); 2] = [(Slip::None, 1), (Slip::OtherToken, 1)];

const PREIMAGE: [(Slip, u64); 4] = [
    (Slip::None, 1),
    (Slip::OtherPreimage, 1),
    (Slip::OtherTop, 1),
    (Slip::OtherToken, 1),
];

const TIMEOUT: [(Slip, u64); 3] = [
    (Slip::None, 501),
    (Slip::None, 500),
    (Slip::OtherToken, 501),
];

const HTLC_TIMEOUT: [(Slip, u64); 4] = [
    (Slip::None, 501),
    (Slip::None, 500),
    (Slip::OtherToken, 501),
    (Slip::OtherRemoteToken, 501),
];

const HTLC_SUCCESS: [(Slip, u64); 5] = [
    (Slip::None, 1),
    (Slip::OtherPreimage, 1),
    (Slip::OtherTop, 1),
    (Slip::OtherToken, 1),
    (Slip::OtherRemoteToken, 1),
];

const FUNDING: [(Slip, u64); 4] = [
    (Slip::None, 1),
    (Slip::OtherRemoteToken, 1),
    (Slip::TimeLock, 1),
    (Slip::GreaterOutputs, 1),
];

/// The slips and heights of a claim.
fn tries_of(claimed: Claimed) -> &'static [(Slip, u64)] {
    match claimed {
        Claimed::Penalty => &PENALTY,
        Claimed::Delayed => &DELAYED,
        Claimed::OfferedPenalty | Claimed::ReceivedPenalty | Claimed::KeyHash => &KEY_ALONE,
        Claimed::DirectPreimage => &PREIMAGE,
        Claimed::DirectTimeout => &TIMEOUT,
        Claimed::HtlcTimeout => &HTLC_TIMEOUT,
        Claimed::HtlcSuccess => &HTLC_SUCCESS,
        Claimed::Funding => &FUNDING,
    }
}

/// Shows the result of each try of a claim.
fn show(page: &mut Page, parties: &Parties, claimed: Claimed) {
    for (slip, height) in tries_of(claimed) {
        let case = Case {
            claimed,
            slip: *slip,
            height: *height,
        };
        case.write(page);
        play(page, parties, &case);
    }
}

/// Shows the results of all claims.
pub fn show_all(page: &mut Page, parties: &Parties) {
    for claimed in &CLAIMED {
        show(page, parties, *claimed);
    }
}
