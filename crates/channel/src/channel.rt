//! One side of a channel.

mod resending;

use crate::commitments::CommitmentState;
use crate::limits::LAST_NUMBER;
use crate::messages::Message;
use crate::opening::{FIRST_INDEX, first_commitments, own_point, own_secret, with_opening_points};
use crate::tokens::{peer_tokens, same_tokens, sign_tokens};
use keys::{Key, Signer, point};
use secrets::Store;
use sighash::Token;
use std::alloc::{AllocError, Global};
use std::marker::Model;
use terms::{Side, Terms};
use updates::{ChannelError, Ledger, OwnUpdate, PeerStep, Revocation, Tokens, Update};

/// One side of a channel: its updates, the numbers of both sides' commitments, the peer's points and secrets, and every commitment that was signed. A
/// contract sees it as its `State`.
///
/// It keeps every update, about 64 bytes each, and 8 bytes more for each fulfilment of its own. A signature, given or received, takes about 120 bytes, and 56 for each HTLC in its commitment. Of a received one
/// the tokens take about 100 bytes more, and 66 for each HTLC that isn't trimmed. In the signer, a received signature takes about 300 bytes, at most about 520,
/// and a received revocation twice as much. The time of a call depends on the HTLCs that stand and
/// on the logarithm of the number of revocations. That of [`fail`](Channel::fail) depends on the number of its own fulfilments too, and that of
/// [`forget`](Channel::forget) and [`resend`](Channel::resend) on the updates that they give.
#[derive(Drop)]
pub struct Channel {
    ledger: Ledger,
    signer: Signer,
    awaiting: bool,
    number: u64,
    peer_number: u64,
    point: Key,
    next_point: Key,
    secrets: Store,
    mine: Vec<CommitmentState>,
    // the peer's tokens on each of them
    tokens: Vec<Tokens>,
    signed: Vec<CommitmentState>,
    revoked_last: bool,
    // the ids of the peer's HTLCs that this side ever fulfilled
    fulfilled: Vec<u64>,
}

impl Model for Channel {
    ghost use Rattle.channel.specs.States.{State};
    ghost use Rattle.channel.specs.Keeping.{IsChannel};

    ghost Value = { State };

    ghost view = { λ c. record {
      held = c.ledger;
      seed = c.signer.seed;
      awaiting = c.awaiting;
      number = c.number;
      peer_number = c.peer_number;
      point = c.point;
      next_point = c.next_point;
      secrets = c.secrets;
      mine = c.mine.items;
      signed = c.signed.items;
      revoked_last = c.revoked_last;
      fulfilled = c.fulfilled.items;
    } };

    ghost invariant = { λ c. IsChannel (record {
      held = c.ledger;
      seed = c.signer.seed;
      awaiting = c.awaiting;
      number = c.number;
      peer_number = c.peer_number;
      point = c.point;
      next_point = c.next_point;
      secrets = c.secrets;
      mine = c.mine.items;
      signed = c.signed.items;
      revoked_last = c.revoked_last;
      fulfilled = c.fulfilled.items;
    }) c.signer c.tokens.items };
}

// This side's next commitment, and the peer's tokens on it.
#[derive(Drop)]
struct NextCommitment {
    commitment: CommitmentState,
    tokens: Tokens,
}

impl Channel {
    ghost use Rattle.std.specs.Prelude.{◌≡◌, ◌↔◌, ℕ, List, ◌+◌, ◌^◌, ◌<◌, ◌≤◌, ◌||◌, nat_le, [], ◌∷◌, ◌++◌, false, true, length, slice_get, option_map, IfOk, IfErr, IfSome, IfNone, OnErr, MatchResult};
    ghost use Rattle.std.specs.List.{cons_option};
    ghost use Rattle.updates.specs.declared.changes.Update.TheVariants.{Add, Fulfil, Fail, Fee};
    ghost use Rattle.updates.specs.declared.errors.ChannelError.TheVariants.{NoMemory};
    ghost use Rattle.terms.specs.Refusals.{OkUnless};
    ghost use Rattle.updates.specs.Refusals.{first_refusal, IsRefusal};
    ghost use Rattle.updates.specs.Steady.{next_htlc};
    ghost use Rattle.updates.specs.declared.messages.PeerStep.TheVariants.{Update as Updated, CommitmentSigned};
    ghost use Rattle.channel.specs.declared.messages.Message.TheVariants.{Step, RevokeAndAck};
    ghost use Rattle.channel.specs.declared.limits.TheConstants.{LAST_NUMBER as last_number};
    ghost use Rattle.channel.specs.Points.{is_foreign};
    ghost use Rattle.channel.specs.Keeping.{CanOpen, HasBases, one_if};
    ghost use Rattle.channel.specs.Numbered.{AreNumbered};
    ghost use Rattle.terms.specs.Sides.{other};
    ghost use Rattle.channel.specs.Rights.{rights_of};
    ghost use Rattle.keys.specs.Rights.{MaySign};
    ghost use Rattle.updates.specs.Shares.{IsSoundIn};
    ghost use Rattle.channel.specs.Tokens.{IsBuilt, opening_tests, peer_tokens as tokens_of};
    ghost use Rattle.channel.specs.States.{state_at_opening, peers_next, own_next, update_of, repeat_refusal, update_refusal, sign_refusal, receive_refusal, receive_tests, after_update, after_sign, after, answers, signature_message};

    /// A side of a new channel, with the peer's per-commitment points for 0 and 1, and the peer's token on this side's commitment 0. Any other token is refused
    /// as BadSignature. The signer has learnt nothing yet, and its funding and HTLC base keys stand in the terms.
    pub fn new(
        alloc: Global,
        terms: Terms,
        side: Side,
        signer: Signer,
        first_point: Key,
        next_point: Key,
        token: &Token,
    ) -> Result<Channel, ChannelError>
        requires { CanOpen terms side signer }
        ensures ok { IfOk result (λ c. c ≡ state_at_opening terms side signer.seed first_point
            next_point) }
        ensures tested { OkUnless result
            (first_refusal (opening_tests terms side signer.seed token.now)) IsRefusal }
    {
        let first = first_commitments(alloc, terms, side, &signer, first_point, token)?;
        let signer = with_opening_points(signer, &first_point, &next_point)?;
        Ok(Channel {
            ledger: Ledger::new(alloc, terms, side),
            signer,
            awaiting: false,
            number: 0,
            peer_number: 0,
            point: first_point,
            next_point,
            secrets: Store::new(),
            mine: first.own.mine,
            tokens: first.own.tokens,
            signed: first.signed,
            revoked_last: false,
            fulfilled: Vec::new(alloc),
        })
    }

    /// The terms of the channel.
    pub fn terms(&self) -> &Terms
        ensures { result.now ≡ self.now.held.terms }
    {
        self.ledger.terms()
    }

    /// Which side of the channel this is.
    pub fn side(&self) -> Side
        ensures { result ≡ self.now.held.side }
    {
        self.ledger.side()
    }

    /// Whether a signature given out awaits its revocation.
    pub fn awaits_revocation(&self) -> bool
        ensures { result ≡ self.now.awaiting }
    {
        self.awaiting
    }

    /// True while signing is blocked: a signature given out awaits its revocation, or the last number is signed.
    pub fn waits_to_sign(&self) -> bool
        ensures { result ≡ (self.now.awaiting || nat_le last_number self.now.peer_number) }
    {
        self.awaiting || self.peer_number >= LAST_NUMBER
    }

    /// The number of this side's newest commitment.
    pub fn number(&self) -> u64
        ensures number { result ≡ self.now.number }
        ensures bound { result ≤ last_number }
    {
        self.number
    }

    /// The number of the peer's newest commitment that revoked the one before. It is also the number of revocations received.
    pub fn peer_number(&self) -> u64
        ensures number { result ≡ self.now.peer_number }
        ensures bound { result ≤ last_number }
        ensures revocations { result ≡ length self.now.secrets }
    {
        self.peer_number
    }

    /// This side's commitments that the peer signed, by number.
    pub fn own_commitments(&self) -> &[CommitmentState]
        ensures commitments { result.now ≡ self.now.mine }
        ensures numbered { AreNumbered self.now.held.terms self.now.held.side
            (self.now.number + 1) result.now }
    {
        self.mine.as_slice()
    }

    /// The peer's commitments that were signed, by number: the revoked ones, the newest, and the one after it while its revocation is awaited.
    pub fn peers_commitments(&self) -> &[CommitmentState]
        ensures commitments { result.now ≡ self.now.signed }
        ensures numbered { AreNumbered self.now.held.terms (other self.now.held.side)
            (self.now.peer_number + 1 + one_if self.now.awaiting) result.now }
    {
        self.signed.as_slice()
    }

    /// This side's commitment of a number, if the peer signed it.
    pub fn own_commitment(&self, number: u64) -> Option<&CommitmentState>
        ensures { option_map (λ c. c.now) result ≡ slice_get self.now.mine number }
    {
        self.mine.get(number as usize)
    }

    /// The peer's tokens on this side's commitment of a number, as they came with its signature. `None` if the peer did not sign it. The only error is that
    /// memory ran out.
    pub fn own_tokens(&self, number: u64) -> Result<Option<Tokens>, AllocError>
        ensures { IfOk result (λ t. t ≡ option_map (tokens_of self.now.held.terms)
            (slice_get self.now.mine number)) }
    {
        let Some(tokens) = self.tokens.get(number as usize) else {
            return Ok(None);
        };
        let copy = tokens.copy()?;
        Ok(Some(copy))
    }

    /// The peer's commitment of a number, if it was signed.
    pub fn peers_commitment(&self, number: u64) -> Option<&CommitmentState>
        ensures { option_map (λ c. c.now) result ≡ slice_get self.now.signed number }
    {
        self.signed.get(number as usize)
    }

    /// The per-commitment secret of the peer's commitment of a number, if it is revoked. It takes at most 48 hashes.
    pub fn peers_secret(&self, number: u64) -> Option<[u8; 32]>
        ensures { result ≡ slice_get self.now.secrets number }
    {
        if number >= self.peer_number {
            return None;
        }
        self.secrets.get(FIRST_INDEX - number)
    }

    /// The side's signer, whose funding and HTLC base keys stand in the terms. It knows its own points up to the one after its newest commitment's. It knows each
    /// point and each secret received from the peer, so it may sign for what the peer's revoked commitments pay.
    pub fn signer(&self) -> &Signer
        ensures seed { result.now.seed ≡ self.now.seed }
        ensures bases { HasBases self.now.held.terms self.now.held.side self.now.seed }
        ensures rights { (key : List ℕ) → MaySign result.now key
            ↔ MaySign (rights_of self.now) key }
    {
        &self.signer
    }

    /// Offers an HTLC of `amount_msat` millisatoshis for the payment hash `hash`, which expires at the block height `expiry_height` (BOLT 2, `update_add_htlc`), and returns
    /// the message. Checked in this order: AmountZero, BelowMinimum, ExpiryTooLarge, TooManyHtlcs, OverBalance. A refusal leaves the channel as it was.
    pub fn offer(
        &mut self,
        amount_msat: u64,
        hash: [u8; 32],
        expiry_height: u32,
    ) -> Result<Message, ChannelError>
        ensures message { IfOk result (λ m. m ≡ Step (Updated
            (Add (next_htlc self.old.held.own amount_msat hash expiry_height)))) }
        ensures ok { IfOk result (λ _. self.new ≡ after_update
            (Add (next_htlc self.old.held.own amount_msat hash expiry_height)) self.old) }
        ensures tested { OkUnless result
            (update_refusal self.old (Add (next_htlc self.old.held.own amount_msat hash expiry_height)))
            IsRefusal }
        ensures err { OnErr result (self.new ≡ self.old) }
    {
        match self.ledger.offer(amount_msat, hash, expiry_height) {
            Ok(htlc) => Ok(Message::Step(PeerStep::Update(Update::Add(htlc)))),
            Err(refusal) => Err(refusal),
        }
    }

    /// Fulfils an HTLC of the peer (BOLT 2, `update_fulfill_htlc`), and returns the message. UnknownHtlc if the peer has no HTLC of this id that passed all
    /// stages and that nobody removed, else WrongPreimage if the preimage is not that of its hash. A refusal leaves the channel as it was.
    pub fn fulfil(&mut self, id: u64, preimage: [u8; 32]) -> Result<Message, ChannelError>
        ensures message { IfOk result (λ m. m ≡ Step (Updated (Fulfil id preimage))) }
        ensures ok { IfOk result (λ _. self.new ≡ after_update (Fulfil id preimage) self.old) }
        ensures tested { OkUnless result (update_refusal self.old (Fulfil id preimage)) IsRefusal }
        ensures err { OnErr result (self.new ≡ self.old) }
    {
        match self.fulfilled.reserve(1) {
            Ok(()) => {}
            Err(_) => return Err(ChannelError::NoMemory),
        }
        match self.ledger.fulfil(id, preimage) {
            Ok(()) => {
                self.fulfilled.push(id).unwrap();
                Ok(Message::Step(PeerStep::Update(Update::Fulfil { id, preimage })))
            }
            Err(refusal) => Err(refusal),
        }
    }

    // Whether this side ever fulfilled the HTLC that it is about to fail. What else refuses the failure comes first.
    fn check_repeat(&self, id: u64) -> Result<(), ChannelError>
        ensures { MatchResult result (λ _. repeat_refusal self.now (Fail id) ≡ None)
            (IsRefusal (update_refusal self.now (Fail id))) }
    {
        if !self.fulfilled.as_slice().contains(&id) {
            return Ok(());
        }
        match self.ledger.check_own(&Update::Fail { id }) {
            Ok(()) => Err(ChannelError::AlreadyFulfilled),
            Err(refusal) => Err(refusal),
        }
    }

    /// Fails an HTLC of the peer (BOLT 2, `update_fail_htlc`), and returns the message: UnknownHtlc as for `fulfil`, else AlreadyFulfilled if this side
    /// fulfilled it before its connection was cut. A refusal leaves the channel as it was. It looks through the ids of the HTLCs that this side ever fulfilled.
    pub fn fail(&mut self, id: u64) -> Result<Message, ChannelError>
        ensures message { IfOk result (λ m. m ≡ Step (Updated (Fail id))) }
        ensures ok { IfOk result (λ _. self.new ≡ after_update (Fail id) self.old) }
        ensures tested { OkUnless result (update_refusal self.old (Fail id)) IsRefusal }
        ensures err { OnErr result (self.new ≡ self.old) }
    {
        match self.check_repeat(id) {
            Ok(()) => {}
            Err(refusal) => return Err(refusal),
        }
        match self.ledger.fail(id) {
            Ok(()) => Ok(Message::Step(PeerStep::Update(Update::Fail { id }))),
            Err(refusal) => Err(refusal),
        }
    }

    /// Changes the feerate, in satoshis per 1,000 weight units (BOLT 2, `update_fee`), and returns the message. NotOpener if this side did not open the channel.
    /// A refusal leaves the channel as it was.
    pub fn set_fee(&mut self, feerate_per_kw: u32) -> Result<Message, ChannelError>
        ensures message { IfOk result (λ m. m ≡ Step (Updated (Fee feerate_per_kw))) }
        ensures ok { IfOk result (λ _. self.new ≡ after_update (Fee feerate_per_kw) self.old) }
        ensures tested { OkUnless result (update_refusal self.old (Fee feerate_per_kw)) IsRefusal }
        ensures err { OnErr result (self.new ≡ self.old) }
    {
        match self.ledger.set_fee(feerate_per_kw) {
            Ok(()) => Ok(Message::Step(PeerStep::Update(Update::Fee { feerate_per_kw }))),
            Err(refusal) => Err(refusal),
        }
    }

    /// Makes an update, and returns the message: refused as by [`offer`](Channel::offer), [`fulfil`](Channel::fulfil), [`fail`](Channel::fail) and
    /// [`set_fee`](Channel::set_fee). A refusal leaves the channel as it was.
    pub fn make(&mut self, update: &OwnUpdate) -> Result<Message, ChannelError>
        ensures message { IfOk result (λ m. m ≡ Step (Updated (update_of self.old update.now))) }
        ensures ok { IfOk result (λ _. self.new ≡ after_update
            (update_of self.old update.now) self.old) }
        ensures tested { OkUnless result
            (update_refusal self.old (update_of self.old update.now)) IsRefusal }
        ensures err { OnErr result (self.new ≡ self.old) }
    {
        match update {
            OwnUpdate::Offer {
                amount_msat,
                hash,
                expiry_height,
            } => self.offer(*amount_msat, *hash, *expiry_height),
            OwnUpdate::Fulfil { id, preimage } => self.fulfil(*id, *preimage),
            OwnUpdate::Fail { id } => self.fail(*id),
            OwnUpdate::SetFee { feerate_per_kw } => self.set_fee(*feerate_per_kw),
        }
    }

    // This side's next commitment.
    #[tactic(auto, using(crate::proofs::Built::built_view))]
    fn own_next(&self) -> Result<CommitmentState, ChannelError>
        requires { self.now.number < last_number }
        ensures ok { IfOk result (λ c. c ≡ own_next self.now) }
        ensures built { IfOk result (λ c. IsBuilt self.now.held.terms c) }
        ensures sound { IfOk result (λ _. IsSoundIn self.now.held self.now.held.own.past_receiver
            self.now.held.theirs.known) }
        ensures err { IfErr result (λ e. e ≡ NoMemory) }
    {
        let view = match self.ledger.view_to_receive() {
            Ok(view) => view,
            Err(_) => return Err(ChannelError::NoMemory),
        };
        Ok(CommitmentState {
            view,
            owner: self.ledger.side(),
            number: self.number + 1,
            point: own_point(&self.signer, self.number + 1),
        })
    }

    // The peer's next commitment.
    #[tactic(auto, using(crate::proofs::Built::built_view))]
    fn peers_next(&self) -> Result<CommitmentState, ChannelError>
        requires { self.now.peer_number < last_number }
        ensures ok { IfOk result (λ c. c ≡ peers_next self.now) }
        ensures built { IfOk result (λ c. IsBuilt self.now.held.terms c) }
        ensures sound { IfOk result (λ _. IsSoundIn self.now.held self.now.held.own.known
            self.now.held.theirs.past_receiver) }
        ensures err { IfErr result (λ e. e ≡ NoMemory) }
    {
        let view = match self.ledger.view_to_sign() {
            Ok(view) => view,
            Err(_) => return Err(ChannelError::NoMemory),
        };
        Ok(CommitmentState {
            view,
            owner: self.ledger.side().other(),
            number: self.peer_number + 1,
            point: self.next_point,
        })
    }

    // Whether this side may sign.
    fn check_sign(&self) -> Result<(), ChannelError>
        ensures tested { OkUnless result (sign_refusal self.now) IsRefusal }
        ensures waits { IfOk result (λ _. self.now.awaiting ≡ false) }
        ensures below { IfOk result (λ _. self.now.peer_number < last_number) }
    {
        if self.awaiting || self.peer_number >= LAST_NUMBER {
            return Err(ChannelError::NotYourTurn);
        }
        if self.ledger.signs_nothing() {
            return Err(ChannelError::NoUpdates);
        }
        Ok(())
    }

    /// The peer's next commitment, which [`signed`](Channel::signed) would sign. NotYourTurn while a signature awaits its revocation, and after the last number;
    /// else NoUpdates if it would cover no new update.
    pub fn ready(&self) -> Result<CommitmentState, ChannelError>
        ensures ok { IfOk result (λ c. c ≡ peers_next self.now) }
        ensures built { IfOk result (λ c. IsBuilt self.now.held.terms c) }
        ensures sound { IfOk result (λ _. IsSoundIn self.now.held self.now.held.own.known
            self.now.held.theirs.past_receiver) }
        ensures tested { OkUnless result (sign_refusal self.now) IsRefusal }
    {
        match self.check_sign() {
            Ok(()) => self.peers_next(),
            Err(refusal) => Err(refusal),
        }
    }

    /// Signs the peer's next commitment (BOLT 2, `commitment_signed`), and returns the message: no question about the channel, but a step of it. Refused as
    /// by [`ready`](Channel::ready). A refusal leaves the channel as it was.
    pub fn signed(&mut self) -> Result<Message, ChannelError>
        ensures message { IfOk result (λ m. m ≡ signature_message tokens_of self.old) }
        ensures ok { IfOk result (λ _. self.new ≡ after_sign self.old) }
        ensures tested { OkUnless result (sign_refusal self.old) IsRefusal }
        ensures err { OnErr result (self.new ≡ self.old) }
    {
        self.check_sign()?;
        let next = match self.peers_next() {
            Ok(next) => next,
            Err(_) => return Err(ChannelError::NoMemory),
        };
        let alloc = *self.signed.allocator();
        let tokens = match sign_tokens(alloc, &self.signer, self.ledger.terms(), &next) {
            Ok(tokens) => tokens,
            Err(_) => return Err(ChannelError::NoMemory),
        };
        match self.signed.push(next) {
            Ok(()) => {}
            Err(_) => return Err(ChannelError::NoMemory),
        }
        self.ledger.sign();
        self.awaiting = true;
        self.revoked_last = false;
        Ok(Message::Step(PeerStep::CommitmentSigned(tokens)))
    }

    // The peer's secrets with one more, if it is of their seed.
    fn with_secret(&self, secret: &[u8; 32]) -> Option<Store>
        requires { self.now.peer_number < last_number }
        ensures some { IfSome result (λ s. s ≡ self.now.secrets ++ secret.now ∷ []) }
        ensures own { IfSome result (λ _. is_foreign self.now.secrets secret.now ≡ false) }
        ensures foreign { IfNone result (is_foreign self.now.secrets secret.now ≡ true) }
    {
        let mut secrets = self.secrets.copy();
        match secrets.insert(FIRST_INDEX - self.peer_number, secret) {
            Ok(()) => Some(secrets),
            Err(_) => None,
        }
    }

    // This side's next commitment, and the peer's tokens on it. Other tokens are refused as BadSignature.
    fn check_signature(&self, tokens: &Tokens) -> Result<NextCommitment, ChannelError>
        ensures ok { IfOk result (λ n. n.commitment ≡ own_next self.now) }
        ensures kept { IfOk result (λ n. n.tokens
            ≡ tokens_of self.now.held.terms (own_next self.now)) }
        ensures tested { OkUnless result
            (receive_refusal tokens_of self.now (Step (CommitmentSigned tokens.now))) IsRefusal }
        ensures sound { IfOk result (λ _. IsSoundIn self.now.held self.now.held.own.past_receiver
            self.now.held.theirs.known) }
        ensures below { IfOk result (λ _. self.now.number < last_number) }
    {
        if self.number >= LAST_NUMBER {
            return Err(ChannelError::NotYourTurn);
        }
        if self.ledger.receives_nothing() {
            return Err(ChannelError::NoUpdates);
        }
        let next = match self.own_next() {
            Ok(next) => next,
            Err(_) => return Err(ChannelError::NoMemory),
        };
        let alloc = *self.mine.allocator();
        let expected = match peer_tokens(alloc, self.ledger.terms(), &next) {
            Ok(expected) => expected,
            Err(_) => return Err(ChannelError::NoMemory),
        };
        if !same_tokens(tokens, &expected) {
            return Err(ChannelError::BadSignature);
        }
        Ok(NextCommitment {
            commitment: next,
            tokens: expected,
        })
    }

    // Receives a signature, and returns the revocation that answers it.
    fn receive_signature(&mut self, tokens: &Tokens) -> Result<Revocation, ChannelError>
        ensures answer { IfOk result (λ r. RevokeAndAck r ∷ [] ≡ answers self.old
            (Step (CommitmentSigned tokens.now))) }
        ensures ok { IfOk result (λ _. self.new ≡ after self.old
            (Step (CommitmentSigned tokens.now))) }
        ensures tested { OkUnless result
            (receive_refusal tokens_of self.old (Step (CommitmentSigned tokens.now))) IsRefusal }
        ensures err { OnErr result (self.new ≡ self.old) }
    {
        let next = self.check_signature(tokens)?;
        match self.mine.reserve(1) {
            Ok(()) => {}
            Err(_) => return Err(ChannelError::NoMemory),
        }
        match self.tokens.reserve(1) {
            Ok(()) => {}
            Err(_) => return Err(ChannelError::NoMemory),
        }
        let secret = own_secret(&self.signer, self.number);
        let next_point = own_point(&self.signer, self.number + 2);
        match self.signer.learn_point(&next_point) {
            Ok(()) => {}
            Err(_) => return Err(ChannelError::NoMemory),
        }
        self.mine.push(next.commitment).unwrap();
        self.tokens.push(next.tokens).unwrap();
        self.ledger.receive_signature();
        self.number += 1;
        self.revoked_last = true;
        Ok(Revocation { secret, next_point })
    }

    /// Receives a `revoke_and_ack` (BOLT 2). NotYourTurn where no signature awaits one; else WrongSecret where the secret is not the one of its point, or is not
    /// of the seed of those before. A refusal leaves the channel as it was. What [`receive`](Channel::receive) says of storing holds of it too.
    pub fn receive_revocation(&mut self, revocation: &Revocation) -> Result<(), ChannelError>
        ensures ok { IfOk result (λ _. self.new ≡ after self.old (RevokeAndAck revocation.now)) }
        ensures tested { OkUnless result
            (receive_refusal tokens_of self.old (RevokeAndAck revocation.now)) IsRefusal }
        ensures err { OnErr result (self.new ≡ self.old) }
    {
        if !self.awaiting {
            return Err(ChannelError::NotYourTurn);
        }
        if point(&revocation.secret).bytes != self.point.bytes {
            return Err(ChannelError::WrongSecret);
        }
        let Some(secrets) = self.with_secret(&revocation.secret) else {
            return Err(ChannelError::WrongSecret);
        };
        match self
            .signer
            .learn_revocation(&revocation.secret, &revocation.next_point)
        {
            Ok(()) => {}
            Err(_) => return Err(ChannelError::NoMemory),
        }
        self.secrets = secrets;
        self.ledger.receive_revocation();
        self.awaiting = false;
        self.peer_number += 1;
        self.point = self.next_point;
        self.next_point = revocation.next_point;
        Ok(())
    }

    /// Receives a message of the peer other than a `revoke_and_ack`, and returns the answer, as [`receive`](Channel::receive) does: what is said there of
    /// storing, of feerates and of reserves holds of it too.
    pub fn receive_step(&mut self, step: &PeerStep) -> Result<Option<Message>, ChannelError>
        ensures answer { IfOk result (λ m. cons_option m [] ≡ answers self.old (Step step.now)) }
        ensures ok { IfOk result (λ _. self.new ≡ after self.old (Step step.now)) }
        ensures tested { OkUnless result
            (receive_refusal tokens_of self.old (Step step.now)) IsRefusal }
        ensures err { OnErr result (self.new ≡ self.old) }
    {
        match step {
            PeerStep::Update(update) => match self.ledger.receive_update(update) {
                Ok(()) => Ok(None),
                Err(refusal) => Err(refusal),
            },
            PeerStep::CommitmentSigned(tokens) => match self.receive_signature(tokens) {
                Ok(revocation) => Ok(Some(Message::RevokeAndAck(revocation))),
                Err(refusal) => Err(refusal),
            },
        }
    }

    /// Receives a message of the peer, and returns the answer: a `commitment_signed` is answered by a `revoke_and_ack`. An update is checked as one of one's own
    /// is. A `commitment_signed` is checked for NotYourTurn, NoUpdates and BadSignature, and a `revoke_and_ack` for NotYourTurn and WrongSecret, in these orders.
    /// A refusal leaves the channel as it was.
    ///
    /// The channel has moved on by the time this returns. Before a caller sends the answer, it has to store what it received where a restart finds it. A
    /// `revoke_and_ack` gives up the commitment before and can't be taken back (BOLT 2, "Message Retransmission"). Two things are not checked here, and the
    /// caller has to screen them beforehand. One is whether a received feerate is one that it would pay or that still confirms. The other is whether the sender
    /// keeps a reserve.
    pub fn receive(&mut self, message: &Message) -> Result<Option<Message>, ChannelError>
        ensures answer { IfOk result (λ m. cons_option m [] ≡ answers self.old message.now) }
        ensures ok { IfOk result (λ _. self.new ≡ after self.old message.now) }
        ensures tested { OkUnless result
            (receive_refusal tokens_of self.old message.now) IsRefusal }
        ensures err { OnErr result (self.new ≡ self.old) }
    {
        match message {
            Message::Step(step) => self.receive_step(step),
            Message::RevokeAndAck(revocation) => match self.receive_revocation(revocation) {
                Ok(()) => Ok(None),
                Err(refusal) => Err(refusal),
            },
        }
    }
}
