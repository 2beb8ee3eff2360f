// A channel of a book, with the numbers of the revoked commitments whose penalties are kept, and the number with which this side closed it.

ghost use Rattle.std.specs.Prelude.{◌≡◌, [], IfOk, OnErr, MatchResult, Some, None};
ghost use Rattle.std.specs.List.{cons_option};
ghost use Rattle.terms.specs.Refusals.{OkUnless, IsFirst};
ghost use Rattle.updates.specs.Refusals.{IsRefusal};
ghost use Rattle.channel.specs.Tokens.{peer_tokens as tokens_of};
ghost use Rattle.book.specs.Books.{stepped, is_barred};
ghost use Rattle.book.specs.Replies.{step_refusal, messages_of};

use crate::calls::{Batch, Opening, Step};
use crate::comparing::is_state_at;
use crate::errors::{KeepError, OpenError, SignError, StepError};
use crate::flags::first_unset;
use crate::judging::are_penalties;
use crate::knowing::known_of;
use crate::releasing::{FilledTwice, filled};
use crate::revoking::state_at;
use channel::{Channel, Message};
use claim::Claim;
use filling::{FillError, Filled};
use forms::SharedPatterns;
use keys::Signer;
use penalty::RevokedState;
use resolve::Known;
use std::alloc::{AllocError, Global};
use std::marker::Model;
use updates::{ChannelError, OwnUpdate, PeerStep, Revocation};

/// A channel, and which of the peer's revoked commitments have their penalties kept. Contracts see it as a `ChannelBook`.
#[derive(Drop)]
pub(crate) struct OpenChannel {
    channel: Channel,
    // the patterns of the scripts, which the channels of a book share
    patterns: SharedPatterns,
    // in the order in which they were kept
    kept: Vec<u64>,
    // by number, whether its penalties are kept
    flags: Vec<bool>,
    // the lowest number whose flag is not set
    below: usize,
    // the number of the commitment with which this side closed the channel
    closed: Option<u64>,
}

impl Model for OpenChannel {
    ghost use Rattle.book.specs.Books.{ChannelBook};
    ghost use Rattle.book.specs.Kept.{IsBeside};

    ghost Value = { ChannelBook };

    ghost view = { λ o. record { state = o.channel; kept = o.kept.items; closed = o.closed } };

    ghost invariant = { λ o. IsBeside (record { state = o.channel; kept = o.kept.items; closed = o.closed }) o.flags.items o.below };
}

// A step that a channel took, with the message that it sends or that answers the step.
#[derive(Drop)]
pub(crate) struct Taken {
    pub(crate) step: Step,
    pub(crate) message: Option<Message>,
}

// Takes a step, and returns it with the message that it sends or that answers it.
fn take(channel: &mut Channel, step: Step) -> Result<Taken, ChannelError>
    ensures step { IfOk result (λ t. t.step ≡ step) }
    ensures message { IfOk result (λ t. cons_option t.message [] ≡ messages_of channel.old step) }
    ensures ok { IfOk result (λ _. channel.new ≡ stepped step channel.old) }
    ensures tested { OkUnless result (step_refusal tokens_of channel.old step) IsRefusal }
    ensures err { OnErr result (channel.new ≡ channel.old) }
{
    match step {
        Step::Own(update) => match channel.make(&update) {
            Ok(message) => Ok(Taken {
                step: Step::Own(update),
                message: Some(message),
            }),
            Err(refusal) => Err(refusal),
        },
        Step::Peer(step) => match channel.receive_step(&step) {
            Ok(message) => Ok(Taken {
                step: Step::Peer(step),
                message,
            }),
            Err(refusal) => Err(refusal),
        },
    }
}

// Whether a closed channel does not take a step: a signature, or an update of one's own other than a fulfil.
fn is_barred(step: &Step) -> bool
    ensures { result ≡ is_barred step.now }
{
    match step {
        Step::Own(OwnUpdate::Fulfil { .. }) | Step::Peer(PeerStep::Update(_)) => false,
        Step::Own(OwnUpdate::Offer { .. }) | Step::Own(OwnUpdate::Fail { .. }) => true,
        Step::Own(OwnUpdate::SetFee { .. }) | Step::Peer(PeerStep::CommitmentSigned(_)) => true,
    }
}

// The patterns that another channel has, for one more channel. They are listed where there is no other. The only error is that memory ran out.
fn patterns_beside(
    alloc: Global,
    another: Option<&OpenChannel>,
) -> Result<SharedPatterns, AllocError> {
    match another {
        Some(another) => another.patterns.share(),
        None => SharedPatterns::new(alloc),
    }
}

impl OpenChannel {
    ghost use Rattle.std.specs.Prelude.{◌<◌, length};
    ghost use Rattle.std.specs.Option.{ForSome};
    ghost use Rattle.penalty.specs.Claimable.{claimable_of};
    ghost use Rattle.penalty.specs.Sets.{AreClaimsOn};
    ghost use Rattle.book.specs.Penalties.{is_penalty_set};
    ghost use Rattle.channel.specs.declared.messages.Message.TheVariants.{RevokeAndAck};
    ghost use Rattle.channel.specs.States.{after, after_sign, receive_refusal, signature_message};
    ghost use Rattle.book.specs.Books.{with_state, with_kept, with_closed, opened_by, is_kept, kept_at};
    ghost use Rattle.book.specs.Knowing.{IsKnownOf};
    ghost use Rattle.book.specs.Replies.{book_step_refusal, sign_refusal, keep_refusal};
    ghost use Rattle.book.specs.Revoked.{IsRevokedIn, early_keep_refusal};
    ghost use Rattle.book.specs.Calling.{IsOpenRefusal, IsStepRefusal, IsSignRefusal, IsKeepRefusal, IsFillRefusal, token_refusal, early_sign_refusal, filling_by};
    ghost use Rattle.channel.specs.Rights.{rights_of};
    ghost use Rattle.book.specs.Signers.{fill_refusal};

    /// A channel without revoked commitments.
    pub(crate) fn new(alloc: Global, channel: Channel, patterns: SharedPatterns) -> OpenChannel
        requires { channel.secrets ≡ [] }
        ensures { result ≡ record { state = channel; kept = []; closed = None } }
    {
        OpenChannel {
            channel,
            patterns,
            kept: Vec::new(alloc),
            flags: Vec::new(alloc),
            below: 0,
            closed: None,
        }
    }

    // The channel of an opening.
    fn channel_of(alloc: Global, opening: &Opening) -> Result<Channel, OpenError>
        ensures ok { IfOk result (λ c. record { state = c; kept = []; closed = None }
            ≡ opened_by opening.now) }
        ensures new { IfOk result (λ c. c.secrets ≡ []) }
        ensures tested { OkUnless result (token_refusal opening.now) IsOpenRefusal }
    {
        let signer = Signer::new(alloc, &opening.seed);
        match Channel::new(
            alloc,
            opening.terms,
            opening.side,
            signer,
            opening.first_point,
            opening.next_point,
            &opening.token,
        ) {
            Ok(channel) => Ok(channel),
            Err(refusal) => match refusal {
                ChannelError::NoMemory => Err(OpenError::NoMemory),
                _ => Err(OpenError::BadSignature),
            },
        }
    }

    /// The channel of an opening: `BadSignature` where its token is not the peer's on this side's commitment 0. It shares the patterns of another channel of the
    /// book, and lists them where there is no other.
    pub(crate) fn open(
        alloc: Global,
        opening: &Opening,
        another: Option<&OpenChannel>,
    ) -> Result<OpenChannel, OpenError>
        ensures ok { IfOk result (λ ch. ch ≡ opened_by opening.now) }
        ensures tested { OkUnless result (token_refusal opening.now) IsOpenRefusal }
    {
        let channel = OpenChannel::channel_of(alloc, opening)?;
        let patterns = patterns_beside(alloc, another)?;
        Ok(OpenChannel::new(alloc, channel, patterns))
    }

    /// Takes a step. A refusal changes nothing.
    #[tactic(auto, using(crate::proofs::Stepping::refused_by))]
    pub(crate) fn step(&mut self, step: Step) -> Result<Taken, StepError>
        ensures step { IfOk result (λ t. t.step ≡ step) }
        ensures message { IfOk result (λ t. cons_option t.message []
            ≡ messages_of self.old.state step) }
        ensures ok { IfOk result (λ _. self.new ≡ with_state (stepped step) self.old) }
        ensures tested { OkUnless result (book_step_refusal tokens_of self.old step) IsStepRefusal }
        ensures err { OnErr result (self.new ≡ self.old) }
    {
        if self.closed.is_some() && is_barred(&step) {
            return Err(StepError::ChannelClosed);
        }
        Ok(take(&mut self.channel, step)?)
    }

    /// Receives a revocation and returns its number. A refusal changes nothing.
    pub(crate) fn revoke(&mut self, revocation: &Revocation) -> Result<u64, ChannelError>
        ensures number { IfOk result (λ n. n ≡ length self.old.state.secrets) }
        ensures ok { IfOk result (λ _. self.new ≡ with_state
            (λ s. after s (RevokeAndAck revocation.now)) self.old) }
        ensures tested { OkUnless result
            (receive_refusal tokens_of self.old.state (RevokeAndAck revocation.now)) IsRefusal }
        ensures err { OnErr result (self.new ≡ self.old) }
    {
        self.flags.reserve(1)?;
        let number = self.flags.len() as u64;
        self.channel.receive_revocation(revocation)?;
        self.flags.push(false).unwrap();
        Ok(number)
    }

    // Refuses to sign in a closed channel, while a signature awaits its revocation, or while penalties are missing.
    fn check_sign(&self) -> Result<(), SignError>
        ensures { OkUnless result (early_sign_refusal self.now) IsFirst }
    {
        if self.closed.is_some() {
            return Err(SignError::ChannelClosed);
        }
        if self.channel.waits_to_sign() {
            return Err(SignError::AwaitingRevocation);
        }
        if self.below < self.flags.len() {
            return Err(SignError::PenaltiesMissing(self.below as u64));
        }
        Ok(())
    }

    /// Signs the peer's next commitment and returns the message. A refusal changes nothing.
    pub(crate) fn sign(&mut self) -> Result<Message, SignError>
        ensures message { IfOk result (λ m. m ≡ signature_message tokens_of self.old.state) }
        ensures ok { IfOk result (λ _. self.new ≡ with_state after_sign self.old) }
        ensures tested { OkUnless result (sign_refusal self.old) IsSignRefusal }
        ensures err { OnErr result (self.new ≡ self.old) }
    {
        self.check_sign()?;
        match self.channel.signed() {
            Ok(message) => Ok(message),
            Err(refusal) => match refusal {
                ChannelError::NoMemory => Err(SignError::NoMemory),
                _ => Err(SignError::NoUpdates),
            },
        }
    }

    /// Closes the channel with this side's newest commitment, and returns its number.
    pub(crate) fn close(&mut self) -> u64
        ensures number { result ≡ self.old.state.number }
        ensures closed { self.new ≡ with_closed self.old }
    {
        let number = self.channel.number();
        self.closed = Some(number);
        number
    }

    /// Fills the claims of a batch with the channel's signer.
    pub(crate) fn release(&self, alloc: Global, batch: &Batch) -> Result<Filled, FillError>
        ensures ok { IfOk result (λ f. f ≡ filling_by batch.now) }
        ensures tested { OkUnless result
            (fill_refusal batch.now.claims batch.now.outputs (rights_of self.now.state)
            batch.now.preimages) IsFillRefusal }
    {
        filled(alloc, batch, self.channel.signer())
    }

    /// The same, with a copy of the transaction.
    pub(crate) fn release_twice(
        &self,
        alloc: Global,
        batch: &Batch,
    ) -> Result<FilledTwice, FillError>
        ensures ok { IfOk result (λ r. r.filled ≡ filling_by batch.now) }
        ensures copy { IfOk result (λ r. r.copy ≡ r.filled.tx) }
        ensures tested { OkUnless result
            (fill_refusal batch.now.claims batch.now.outputs (rights_of self.now.state)
            batch.now.preimages) IsFillRefusal }
    {
        let filled = self.release(alloc, batch)?;
        let copy = filled.tx().copy()?;
        Ok(FilledTwice { filled, copy })
    }

    // Whether the claims are the penalties of the peer's revoked commitment of this number.
    fn are_penalties(
        &self,
        alloc: Global,
        number: u64,
        claims: &[Claim],
    ) -> Result<bool, AllocError>
        ensures { IfOk result (λ b. b ≡ is_penalty_set self.now.state number claims.now) }
    {
        let commitments = self.channel.peers_commitments();
        let commitment = match commitments.get(number as usize) {
            Some(commitment) => commitment,
            None => return Ok(false),
        };
        let secret = match self.channel.peers_secret(number) {
            Some(secret) => secret,
            None => return Ok(false),
        };
        let owner = self.channel.side().other();
        are_penalties(
            alloc,
            self.patterns.get(),
            self.channel.terms(),
            owner,
            commitment,
            secret,
            claims,
        )
    }

    // Whether the claims are the penalties of the peer's revoked commitment of this number. `state` is the one whose penalties they are known to be, if any. If it is this commitment's,
    // nothing is built.
    fn are_its_own(
        &self,
        alloc: Global,
        number: u64,
        claims: &[Claim],
        state: Option<&RevokedState>,
    ) -> Result<bool, AllocError>
        requires { ForSome state (λ s. AreClaimsOn (claimable_of s.now) claims.now) }
        ensures { IfOk result (λ b. b ≡ is_penalty_set self.now.state number claims.now) }
    {
        if let Some(state) = state {
            if is_state_at(&self.channel, number, state) {
                return Ok(true);
            }
        }
        self.are_penalties(alloc, number, claims)
    }

    // Why the penalties of a number are refused, if they are.
    fn check_keep(
        &self,
        alloc: Global,
        number: u64,
        claims: &[Claim],
        state: Option<&RevokedState>,
    ) -> Result<(), KeepError>
        requires { ForSome state (λ s. AreClaimsOn (claimable_of s.now) claims.now) }
        ensures tested { OkUnless result (keep_refusal self.now number claims.now) IsKeepRefusal }
        ensures within { IfOk result (λ _. number < length self.now.state.secrets) }
    {
        let Some(is_kept) = self.flags.get(number as usize) else {
            return Err(KeepError::NotRevoked);
        };
        if *is_kept {
            return Err(KeepError::AlreadyKept);
        }
        if !self.are_its_own(alloc, number, claims, state)? {
            return Err(KeepError::OtherState);
        }
        Ok(())
    }

    /// Keeps the penalties of the peer's revoked commitment of this number. `state` is the one whose penalties they are known to be, if any. A refusal changes nothing.
    pub(crate) fn keep(
        &mut self,
        alloc: Global,
        number: u64,
        claims: &[Claim],
        state: Option<&RevokedState>,
    ) -> Result<(), KeepError>
        requires { ForSome state (λ s. AreClaimsOn (claimable_of s.now) claims.now) }
        ensures ok { IfOk result (λ _. self.new ≡ with_kept number self.old) }
        ensures tested { OkUnless result (keep_refusal self.old number claims.now) IsKeepRefusal }
        ensures err { OnErr result (self.new ≡ self.old) }
    {
        self.check_keep(alloc, number, claims, state)?;
        match self.kept.push(number) {
            Ok(()) => {}
            Err(_) => return Err(KeepError::NoMemory),
        }
        let index = number as usize;
        self.flags[index] = true;
        self.below = first_unset(&self.flags, self.below);
        Ok(())
    }

    /// The state of the peer's revoked commitment of this number, whose penalties are not kept. Refused with `NotRevoked`, `AlreadyKept`.
    pub(crate) fn revoked(&self, number: u64) -> Result<RevokedState, KeepError>
        ensures { MatchResult result (IsRevokedIn number (Some self.now))
            (IsKeepRefusal (early_keep_refusal number (Some self.now))) }
    {
        let Some(is_kept) = self.flags.get(number as usize) else {
            return Err(KeepError::NotRevoked);
        };
        if *is_kept {
            return Err(KeepError::AlreadyKept);
        }
        Ok(state_at(&self.channel, number)?)
    }

    /// What the side knows of the channel, with the preimages that came. The only error is that memory ran out.
    pub(crate) fn known(&self, alloc: Global, preimages: Vec<[u8; 32]>) -> Result<Known, AllocError>
        ensures { IfOk result (IsKnownOf self.now.state (is_kept self.now.kept) preimages.items) }
    {
        let patterns = self.patterns.share()?;
        known_of(alloc, patterns, &self.channel, &self.flags, preimages)
    }

    /// The patterns of the scripts.
    pub(crate) fn patterns(&self) -> &SharedPatterns {
        &self.patterns
    }

    /// The channel itself.
    pub(crate) fn channel(&self) -> &Channel
        ensures { result.now ≡ self.now.state }
    {
        &self.channel
    }

    /// Whether the penalties of the peer's revoked commitment of this number are kept; `None` where it is not revoked.
    pub(crate) fn keeps(&self, number: u64) -> Option<bool>
        ensures { result ≡ kept_at self.now number }
    {
        self.flags.get(number as usize).copied()
    }
}
