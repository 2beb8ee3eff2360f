//! What a side of a channel broadcasts to close it, what is due by each verdict, and claims in one transaction. The expected output is from an independent model of BOLT
//! 3 and BOLT 5 and of BIP 65, 68 and 143.

mod known;
mod publishing;
mod settings;
mod showing;
mod sides;

use chain::Chain;
use page::Page;
use resolve::Verdict;
use settings::{Delays, Offer, PREIMAGE, Setting, open_channel};
use showing::{Shown, Step, Taken, play_step};
use terms::Side;

/// The delays of A and of B.
const DELAYS: Delays = [144, 144];

/// The delays where the channel is closed.
const SHORT_DELAYS: Delays = [4, 3];

/// Three HTLCs of A.
const THREE: [Offer; 3] = [
    Offer {
        satoshis: 5_000,
        expiry_height: 500,
    },
    Offer {
        satoshis: 6_000,
        expiry_height: 600,
    },
    Offer {
        satoshis: 7_000,
        expiry_height: 700,
    },
];

/// One HTLC of A, with one of B.
const OF_A: [Offer; 1] = [Offer {
    satoshis: 12_000,
    expiry_height: 500,
}];

const OF_B: [Offer; 1] = [Offer {
    satoshis: 9_000,
    expiry_height: 500,
}];

/// The same with an early expiry.
const SOON_OF_A: [Offer; 1] = [Offer {
    satoshis: 12_000,
    expiry_height: 6,
}];

const SOON_OF_B: [Offer; 1] = [Offer {
    satoshis: 9_000,
    expiry_height: 7,
}];

/// The HTLC of A's commitment 1, for which A is punished.
const SCENARIO: [Offer; 1] = [Offer {
    satoshis: 10_000,
    expiry_height: 5,
}];

/// Shows the steps in a channel that was opened on a chain.
fn show_in(page: &mut Page, setting: &Setting, steps: &[Step], chain: &mut Chain) {
    for step in steps {
        play_step(page, setting, step, chain);
    }
}

/// Opens a channel with these HTLCs of A and of B on a chain, and shows the steps.
fn show_on(
    page: &mut Page,
    delays: Delays,
    of_a: &[Offer],
    of_b: &[Offer],
    steps: &[Step],
    chain: &mut Chain,
) {
    match open_channel(page.alloc(), delays, of_a, of_b, chain) {
        Some(setting) => show_in(page, &setting, steps, chain),
        None => page.fail(),
    }
}

/// Shows the steps in a new channel with these HTLCs of A and of B, on a chain of its own.
fn show_steps(page: &mut Page, delays: Delays, of_a: &[Offer], of_b: &[Offer], steps: &[Step]) {
    match Chain::new(page.alloc()) {
        Ok(mut chain) => show_on(page, delays, of_a, of_b, steps, &mut chain),
        Err(_) => page.fail(),
    }
}

/// A step of a side that knows the preimage, after its commitment of a number closed the channel.
fn show_close(page: &mut Page, what: &'static str, side: Side, newest: u64, shown: Shown) {
    let step = Step {
        what,
        side,
        newest,
        preimage: Some(PREIMAGE),
        shown,
        is_mined: false,
    };
    show_steps(page, SHORT_DELAYS, &SOON_OF_A, &SOON_OF_B, &[step]);
}

/// The commitment of a number that closes the channel.
fn show_closing(page: &mut Page, what: &'static str, side: Side, newest: u64) {
    page.push(what);
    page.push("\n");
    show_close(page, what, side, newest, Shown::Commitment);
}

/// B's HTLC-success transaction on its commitment of a number.
fn show_success(page: &mut Page, what: &'static str, newest: u64) {
    let shown = Shown::Claims(Verdict::Ours, Taken::ByPreimage);
    show_close(page, what, Side::B, newest, shown);
}

/// What closes a channel with an HTLC each way: A's commitment, and B's newest, next and revoked one; and B's HTLC-success transaction on each of the last two.
fn show_closes(page: &mut Page) {
    show_closing(page, "closes: our commitment", Side::A, 1);
    show_closing(page, "closes: the peer's newest", Side::B, 1);
    show_closing(page, "closes: the peer's next", Side::B, 2);
    show_success(page, "closes: HTLC-success on the peer's next", 2);
    show_closing(page, "closes: a revoked one", Side::B, 0);
    show_success(page, "closes: HTLC-success on a revoked one", 0);
}

/// A step that is shown to A, where the commitments of number 1 are the newest.
fn step_of_a(what: &'static str, preimage: Option<[u8; 32]>, shown: Shown) -> Step {
    Step {
        what,
        side: Side::A,
        newest: 1,
        preimage,
        shown,
        is_mined: false,
    }
}

/// Shows what is due with an HTLC each way and a preimage.
fn show_both_ways(page: &mut Page, what: &'static str, preimage: [u8; 32]) {
    let step = step_of_a(what, Some(preimage), Shown::Counts);
    show_steps(page, DELAYS, &OF_A, &OF_B, &[step]);
}

/// Shows what is due with three HTLCs of A and no preimage.
fn show_three_htlcs(page: &mut Page, what: &'static str, shown: Shown) {
    show_steps(page, DELAYS, &THREE, &[], &[step_of_a(what, None, shown)]);
}

/// Shows the first two claims by a verdict in one transaction, with three HTLCs of A.
fn show_two(page: &mut Page, what: &'static str, verdict: Verdict) {
    show_three_htlcs(page, what, Shown::Claims(verdict, Taken::FirstTwo));
}

/// A's commitment 1 in a block, and what B claims of it after it is revoked.
const CLOSE_AND_PUNISH: [Step; 2] = [
    Step {
        what: "A's commitment 1",
        side: Side::A,
        newest: 1,
        preimage: None,
        shown: Shown::Commitment,
        is_mined: true,
    },
    Step {
        what: "three penalties",
        side: Side::B,
        newest: 2,
        preimage: None,
        shown: Shown::Claims(Verdict::Revoked(1), Taken::Penalties),
        is_mined: true,
    },
];

/// Shows all of this.
pub fn show_all(page: &mut Page) {
    show_closes(page);
    show_both_ways(page, "the preimage", PREIMAGE);
    show_both_ways(page, "another preimage", [1; 32]);
    show_three_htlcs(page, "three HTLCs", Shown::Counts);
    show_three_htlcs(page, "no next commitment", Shown::CountsWithoutNext);
    show_two(page, "two direct timeouts", Verdict::Theirs);
    show_two(page, "an HTLC-timeout and another claim", Verdict::Ours);
    show_steps(page, DELAYS, &SCENARIO, &[], &CLOSE_AND_PUNISH);
}
