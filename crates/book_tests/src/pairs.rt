// Two books that share a channel, and what A's answers.

use crate::two_books::{FIRST, offer, offered, opened, opening, penalties_of, signed};
use book::errors::{CloseError, KeepError, OpenError, ReleaseError, SignError, StepError};
use book::{Batch, Book, Step, filled};
use channel::{Message, opening_points};
use claim::Claim;
use filling::FillError;
use keys::Signer;
use lists::List;
use std::alloc::Global;
use std::process::Abort;
use terms::Side;
use tx::OutPoint;
use updates::{OwnUpdate, Revocation};

// The books, and the newest revocation that B's sent. At first this is a secret of zeros.
#[derive(Drop)]
pub(crate) struct Pair {
    alloc: Global,
    pub(crate) a: Book,
    pub(crate) b: Book,
    pub(crate) came: Revocation,
}

// The claims of B's commitment 0 once it is revoked by this secret.
pub(crate) fn first_claims(rt: &impl Abort, alloc: Global, secret: [u8; 32]) -> List<Claim> {
    List::from_vec(penalties_of(rt, alloc, FIRST, 0, secret).into_claims())
}

// The outputs that these claims are on.
fn outpoints_of(rt: &impl Abort, alloc: Global, secret: [u8; 32]) -> Vec<OutPoint> {
    let mut outpoints = Vec::new(alloc);
    for claim in first_claims(rt, alloc, secret).values() {
        outpoints.push(claim.outpoint()).expect(rt, "memory");
    }
    outpoints
}

// These claims, to be filled without outputs.
pub(crate) fn batch_of(rt: &impl Abort, alloc: Global, claims: List<Claim>) -> Batch {
    Batch::new(claims, List::new(alloc), List::new(alloc)).expect(rt, "a batch")
}

// The number of inputs of a batch as a signer fills it.
fn inputs_filled(alloc: Global, batch: &Batch, signer: &Signer) -> Result<usize, FillError> {
    match filled(alloc, batch, signer) {
        Ok(filled) => Ok(filled.tx().inputs().len()),
        Err(refusal) => Err(refusal),
    }
}

impl Pair {
    pub(crate) fn new(rt: &impl Abort, alloc: Global) -> Pair {
        let next_point = opening_points(&Signer::new(alloc, &[2; 32])).second;
        Pair {
            alloc,
            a: opened(rt, alloc, Side::A),
            b: opened(rt, alloc, Side::B),
            came: Revocation {
                secret: [0; 32],
                next_point,
            },
        }
    }

    pub(crate) fn open_again(&mut self, rt: &impl Abort) -> Option<OpenError> {
        let opening = opening(rt, self.alloc, Side::A);
        self.a.open(1, opening).err()
    }

    // A offers an HTLC and signs it. B's answer is its revocation of its commitment 0.
    pub(crate) fn offer_and_sign(&mut self, rt: &impl Abort, amount_msat: u64) -> bool {
        self.came = offered(rt, &mut self.a, &mut self.b, amount_msat);
        true
    }

    // A takes the revocation, B signs the same HTLC to A, and A revokes.
    pub(crate) fn agree(&mut self, rt: &impl Abort) -> bool {
        assert!(rt; self.revoke(0) == Ok(0));
        let came = signed(rt, &mut self.b, &mut self.a);
        self.b.revoke(0, 0, came) == Ok(0)
    }

    // B fulfils the HTLC.
    pub(crate) fn fulfil(&mut self, preimage: [u8; 32]) -> bool {
        let fulfil = Step::Own(OwnUpdate::Fulfil { id: 0, preimage });
        self.b.step(0, 0, fulfil).is_ok()
    }

    // A side closes a channel.
    pub(crate) fn close(&mut self, side: Side, channel: u64) -> Result<u64, CloseError> {
        match side {
            Side::A => self.a.close(5, channel),
            Side::B => self.b.close(6, channel),
        }
    }

    // Why A does not make an update of its own.
    pub(crate) fn update(&mut self, update: OwnUpdate) -> Option<StepError> {
        self.a.step(0, 0, Step::Own(update)).err()
    }

    // Why B does not take a signature of A.
    pub(crate) fn sign_to_b(&mut self, rt: &impl Abort) -> Option<StepError> {
        match self.a.sign(0, 0).expect(rt, "a signature") {
            Message::Step(step) => self.b.step(0, 0, Step::Peer(step)).err(),
            _ => None,
        }
    }

    pub(crate) fn offer(&mut self, channel: u64) -> Option<StepError> {
        self.a.step(0, channel, offer(1_000_000, 501)).err()
    }

    pub(crate) fn sign(&mut self, channel: u64) -> Option<SignError> {
        self.a.sign(0, channel).err()
    }

    pub(crate) fn revoke(&mut self, channel: u64) -> Result<u64, StepError> {
        self.a.revoke(0, channel, self.came)
    }

    // The revocation with a secret of zeros.
    pub(crate) fn revoke_by_zeros(&mut self) -> Result<u64, StepError> {
        let revocation = Revocation {
            secret: [0; 32],
            ..self.came
        };
        self.a.revoke(0, 0, revocation)
    }

    pub(crate) fn keep_none(&mut self, channel: u64, number: u64) -> Option<KeepError> {
        self.a.keep(0, channel, number, List::new(self.alloc)).err()
    }

    pub(crate) fn keep_first(&mut self, rt: &impl Abort) -> Option<KeepError> {
        let claims = first_claims(rt, self.alloc, self.came.secret);
        self.a.keep(3, 0, 0, claims).err()
    }

    // Keeps the penalties of a state of B's for a number.
    pub(crate) fn keep_set(
        &mut self,
        rt: &impl Abort,
        channel: u64,
        number: u64,
        balances_msat: [u64; 2],
        of: u64,
    ) -> Option<KeepError> {
        let set = penalties_of(rt, self.alloc, balances_msat, of, self.came.secret);
        self.a.keep_set(3, channel, number, set).err()
    }

    // Why A's book does not fill the claims on B's commitment 0.
    pub(crate) fn release(&mut self, rt: &impl Abort) -> Option<ReleaseError> {
        let claims = first_claims(rt, self.alloc, self.came.secret);
        let batch = batch_of(rt, self.alloc, claims);
        self.a.release(2, 0, batch).err()
    }

    // The same, where the transaction is to be handed out twice.
    pub(crate) fn release_twice(&mut self, rt: &impl Abort) -> Option<ReleaseError> {
        let claims = first_claims(rt, self.alloc, self.came.secret);
        let batch = batch_of(rt, self.alloc, claims);
        self.a.release_twice(2, 0, batch).err()
    }

    // How many inputs A's book fills again of an entry, or the number of its refusal. The first of the claims on B's commitment 0 are on outputs that were spent.
    pub(crate) fn release_again(
        &mut self,
        rt: &impl Abort,
        entry: u64,
        spent: usize,
    ) -> Result<usize, u8> {
        let mut outpoints = outpoints_of(rt, self.alloc, self.came.secret);
        outpoints.truncate(spent);
        let none = List::new(self.alloc);
        match self.a.release_again(4, entry, outpoints.as_slice(), none) {
            Ok(filled) => Ok(filled.tx().inputs().len()),
            Err(refusal) => Err(refusal.number()),
        }
    }

    // The number of these claims that a signer fills outside of a book.
    fn fill_by(&self, rt: &impl Abort, signer: &Signer) -> Result<usize, FillError> {
        let claims = first_claims(rt, self.alloc, self.came.secret);
        let batch = batch_of(rt, self.alloc, claims);
        inputs_filled(self.alloc, &batch, signer)
    }

    pub(crate) fn fill_by_channel(&self, rt: &impl Abort) -> Result<usize, FillError> {
        self.fill_by(rt, self.a.channel(0).expect(rt, "a channel").signer())
    }

    pub(crate) fn fill_by_seed(&self, rt: &impl Abort) -> Result<usize, FillError> {
        self.fill_by(rt, &Signer::new(self.alloc, &[1; 32]))
    }
}
