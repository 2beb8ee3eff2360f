//! Random steps.

use super::PREIMAGE;
use channel::{Action, Outcome, Pair, PairStep};
use digest::sha256;
use page::Page;
use std::alloc::Global;
use terms::Side;
use updates::OwnUpdate;

/// The HTLCs that a side offered: their number, and the ids of those that its peer did not remove yet.
#[derive(Drop)]
struct Offers {
    made: u64,
    standing: Vec<u64>,
}

impl Offers {
    fn new(alloc: Global) -> Offers {
        Offers {
            made: 0,
            standing: Vec::new(alloc),
        }
    }

    /// One of the ids, or 0 if there is none.
    fn choose(&self, number: u64) -> u64 {
        match self.standing.len() {
            0 => 0,
            len => self.standing[(number % len as u64) as usize],
        }
    }

    /// Adds an HTLC, whose id is forgotten if there is no memory for it.
    fn add(&mut self) {
        let _ = self.standing.push(self.made);
        count(&mut self.made);
    }

    fn remove(&mut self, id: u64) {
        self.standing.retain(|other| *other != id);
    }
}

/// The number of steps that were done, of each kind.
#[derive(Clone, Copy, Drop)]
struct Counts {
    offers: u64,
    fulfilments: u64,
    failures: u64,
    fees: u64,
    signatures: u64,
    deliveries: u64,
    refused_deliveries: u64,
}

/// No steps.
const NONE: Counts = Counts {
    offers: 0,
    fulfilments: 0,
    failures: 0,
    fees: 0,
    signatures: 0,
    deliveries: 0,
    refused_deliveries: 0,
};

/// What was played so far.
#[derive(Drop)]
struct Game {
    of_a: Offers,
    of_b: Offers,
    counts: Counts,
}

/// Adds one.
fn count(number: &mut u64) {
    *number = number.saturating_add(1);
}

/// What a side does, chosen by a number, where `id` is of an HTLC of its peer. Mostly it
/// receives; else it offers, removes, changes the feerate or signs.
fn action_of(number: u64, rest: u64, id: u64) -> Action {
    match number % 16 {
        0 | 1 => Action::Own(OwnUpdate::Offer {
            amount_msat: rest,
            hash: sha256(&PREIMAGE),
            expiry_height: 500,
        }),
        2 => Action::Own(OwnUpdate::Fail { id }),
        3 => Action::Own(OwnUpdate::Fulfil {
            id,
            preimage: PREIMAGE,
        }),
        4 => Action::Own(OwnUpdate::SetFee {
            feerate_per_kw: 1000 + (rest % 1000) as u32,
        }),
        5 | 6 => Action::Sign,
        _ => Action::Deliver,
    }
}

impl Game {
    /// The HTLCs of a side.
    fn offers(&mut self, side: Side) -> &mut Offers {
        match side {
            Side::A => &mut self.of_a,
            Side::B => &mut self.of_b,
        }
    }

    /// The next step, chosen by a number.
    fn next_step(&self, number: u64) -> PairStep {
        let (side, theirs) = if number % 2 == 0 {
            (Side::A, &self.of_b)
        } else {
            (Side::B, &self.of_a)
        };
        let rest = number >> 9;
        PairStep::Turn {
            side,
            action: action_of(number >> 1, rest, theirs.choose(rest)),
        }
    }

    /// Notes an update of a side.
    fn note_update(&mut self, side: Side, update: OwnUpdate) {
        match update {
            OwnUpdate::Offer { .. } => {
                count(&mut self.counts.offers);
                self.offers(side).add();
            }
            OwnUpdate::Fulfil { id, .. } => {
                count(&mut self.counts.fulfilments);
                self.offers(side.other()).remove(id);
            }
            OwnUpdate::Fail { id } => {
                count(&mut self.counts.failures);
                self.offers(side.other()).remove(id);
            }
            OwnUpdate::SetFee { .. } => count(&mut self.counts.fees),
        }
    }

    /// Notes a step that was done.
    fn note_done(&mut self, step: PairStep) {
        let PairStep::Turn { side, action } = step else {
            return;
        };
        match action {
            Action::Own(update) => self.note_update(side, update),
            Action::Sign => count(&mut self.counts.signatures),
            Action::Deliver => count(&mut self.counts.deliveries),
        }
    }

    /// Notes the outcome of a step.
    fn note(&mut self, step: PairStep, outcome: Outcome) {
        match outcome {
            Outcome::Done => self.note_done(step),
            Outcome::Refused(_) => {
                if let PairStep::Turn {
                    action: Action::Deliver,
                    ..
                } = step
                {
                    count(&mut self.counts.refused_deliveries);
                }
            }
            Outcome::NoMessage | Outcome::NotConnected | Outcome::Behind => {}
        }
    }
}

/// The next number of a linear congruential generator: its upper 31 bits.
fn next_number(state: &mut u64) -> u64 {
    *state = state
        .wrapping_mul(6_364_136_223_846_793_005)
        .wrapping_add(1_442_695_040_888_963_407);
    *state >> 33
}

/// Plays a step of a game, and notes its outcome.
fn play_step(pair: &mut Pair, game: &mut Game, step: PairStep) {
    if let Ok(outcomes) = pair.play(&[step]) {
        for outcome in outcomes.as_slice() {
            game.note(step, *outcome);
        }
    }
}

/// Plays this number of steps.
fn play_steps(pair: &mut Pair, game: &mut Game, steps: u64) {
    let mut state = 1;
    for _ in 0..steps {
        let step = game.next_step(next_number(&mut state));
        play_step(pair, game, step);
    }
}

/// Shows how many steps of each kind were done.
fn show_counts(page: &mut Page, counts: &Counts) {
    page.count("Counts { offers: ", counts.offers);
    page.count(", fulfilments: ", counts.fulfilments);
    page.count(", failures: ", counts.failures);
    page.count(", fees: ", counts.fees);
    page.count(", signatures: ", counts.signatures);
    page.count(", deliveries: ", counts.deliveries);
    page.count(", refused_deliveries: ", counts.refused_deliveries);
    page.push(" }\n");
}

/// Plays this number of steps, and shows how many of each kind were done.
pub fn play_at_random(page: &mut Page, pair: &mut Pair, steps: u64) {
    let mut game = Game {
        of_a: Offers::new(page.alloc()),
        of_b: Offers::new(page.alloc()),
        counts: NONE,
    };
    play_steps(pair, &mut game, steps);
    show_counts(page, &game.counts);
}
