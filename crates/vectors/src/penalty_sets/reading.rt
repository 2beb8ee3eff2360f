//! The terms, and revoked states as lines have them.

use crate::{number, short_number};
use digest::sha256;
use keys::Signer;
use lists::List;
use parties::{FUNDING, party, terms_of};
use penalty::{Htlc, RevokedState, Side, StateError, Terms, View};
use secrets::from_seed;
use std::alloc::Global;
use std::str::SplitWhitespace;
use terms::{Party, Share};

/// The seeds of A's signer and of B's.
const SEED_A: [u8; 32] = [0x0a; 32];

const SEED_B: [u8; 32] = [0x0b; 32];

/// The index of the secret of commitment number 0 (BOLT 3).
const LAST_INDEX: u64 = (1 << 48) - 1;

/// A side's signer.
pub fn signer_of(alloc: Global, side: Side) -> Signer {
    match side {
        Side::A => Signer::new(alloc, &SEED_A),
        Side::B => Signer::new(alloc, &SEED_B),
    }
}

/// A side with this starting balance in millisatoshis.
fn party_of(alloc: Global, side: Side, start_msat: u64) -> Party {
    party(&signer_of(alloc, side), start_msat)
}

/// The terms of a channel of 100,000 satoshis. A opened it, and begins with 80,000.
pub fn terms(alloc: Global) -> Option<Terms> {
    let a = party_of(alloc, Side::A, 80_000_000);
    let b = Party {
        delay_blocks: 72,
        ..party_of(alloc, Side::B, 20_000_000)
    };
    terms_of(FUNDING, 100_000, a, b).ok()
}

/// The side that a word names.
fn side_of(word: &str) -> Option<Side> {
    if word == "A" {
        Some(Side::A)
    } else if word == "B" {
        Some(Side::B)
    } else {
        None
    }
}

/// An HTLC, and who offered it.
fn htlc_of(word: &str) -> Option<(Side, Htlc)> {
    let mut parts = word.split(':');
    let side = side_of(parts.next()?)?;
    let amount_msat = number(parts.next());
    let expiry_height = short_number(parts.next());
    let byte = u8::try_from(number(Some(parts.next()?))).unwrap_or(0);
    let htlc = Htlc {
        id: 0,
        amount_msat,
        hash: sha256(&[byte; 32]),
        expiry_height,
    };
    Some((side, htlc))
}

/// The numbers at the beginning of a line.
#[derive(Clone, Copy)]
pub struct Head {
    owner: Side,
    number: u64,
    feerate_per_kw: u32,
    a: u64,
    b: u64,
}

/// The numbers that the first words name.
fn head_of(words: &mut SplitWhitespace<'_>) -> Option<Head> {
    Some(Head {
        owner: side_of(words.next()?)?,
        number: number(words.next()),
        feerate_per_kw: short_number(words.next()),
        a: number(words.next()),
        b: number(words.next()),
    })
}

/// The HTLCs that each side offered.
#[derive(Drop)]
pub struct Offers {
    a: Vec<Htlc>,
    b: Vec<Htlc>,
}

/// Appends an HTLC, with the next id. Returns whether there was memory.
fn push(offered: &mut Vec<Htlc>, htlc: Htlc) -> bool {
    let id = offered.len() as u64;
    offered.push(Htlc { id, ..htlc }).is_ok()
}

impl Offers {
    /// No HTLCs.
    pub fn new(alloc: Global) -> Offers {
        Offers {
            a: Vec::new(alloc),
            b: Vec::new(alloc),
        }
    }

    /// Appends the HTLC that a word names. Returns whether it names one.
    fn push_word(&mut self, word: &str) -> bool {
        match htlc_of(word) {
            Some((Side::A, htlc)) => push(&mut self.a, htlc),
            Some((Side::B, htlc)) => push(&mut self.b, htlc),
            None => false,
        }
    }

    /// Reads the HTLCs of a line, each side's with ids from 0 on, and returns the numbers before them. Returns `None` where some word is wrong.
    pub fn read(&mut self, line: &str) -> Option<Head> {
        let mut words = line.split_whitespace();
        let head = head_of(&mut words)?;
        for word in words {
            if !self.push_word(word) {
                return None;
            }
        }
        Some(head)
    }
}

/// The secret of a side's commitment of a number.
fn secret_of(signer: &Signer, number: u64) -> [u8; 32] {
    from_seed(&signer.commitment_seed(), LAST_INDEX.saturating_sub(number))
}

/// The state with these numbers and HTLCs.
pub fn state_of(terms: &Terms, head: &Head, offers: Offers) -> Result<RevokedState, StateError> {
    let secret = secret_of(&signer_of(*offers.a.allocator(), head.owner), head.number);
    let view = View {
        a: Share {
            balance_msat: head.a,
            offered: List::from_vec(offers.a),
        },
        b: Share {
            balance_msat: head.b,
            offered: List::from_vec(offers.b),
        },
        feerate_per_kw: head.feerate_per_kw,
    };
    RevokedState::new(*terms, view, head.owner, head.number, secret)
}
