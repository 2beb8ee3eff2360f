//! Connections that are cut.

ghost use Rattle.std.specs.Prelude.{◌≡◌, ◌+◌, ◌≤◌, ◌++◌, [], ◌∷◌, map, IfOk, OnErr};
ghost use Rattle.channel.specs.declared.limits.TheConstants.{LAST_NUMBER as last_number};
ghost use Rattle.channel.specs.Reestablishing.{update_message, secret_before};

use super::Channel;
use crate::commitments::CommitmentState;
use crate::limits::LAST_NUMBER;
use crate::messages::Message;
use crate::opening::{own_point, own_secret};
use crate::reestablish::{Again, Reestablish};
use crate::tokens::sign_tokens;
use keys::Signer;
use std::alloc::AllocError;
use updates::{ChannelError, PeerStep, Revocation, Tokens, Update};

/// What stands for the secret before the first.
const NO_SECRET: [u8; 32] = [0; 32];

// Appends a message. The only error is that memory ran out, which leaves the messages as they were.
fn push_message(messages: &mut Vec<Message>, message: Message) -> Result<(), AllocError>
    ensures ok { IfOk result (λ _. messages.new.items ≡ messages.old.items ++ message ∷ []) }
    ensures err { OnErr result (messages.new.items ≡ messages.old.items) }
{
    messages.push(message)?;
    Ok(())
}

// Appends the messages of updates. The only error is that memory ran out.
fn push_updates(messages: &mut Vec<Message>, updates: &[Update]) -> Result<(), AllocError>
    ensures { IfOk result (λ _. messages.new.items ≡ messages.old.items ++ map update_message updates.now) }
{
    for update in updates {
        push_message(messages, Message::Step(PeerStep::Update(*update)))?;
    }
    Ok(())
}

// The last secret that a peer has which expects this revocation next.
fn secret_before(signer: &Signer, next_revocation: u64) -> [u8; 32]
    requires { next_revocation ≤ last_number + 1 }
    ensures { result ≡ secret_before signer.now.seed next_revocation }
{
    if next_revocation == 0 {
        NO_SECRET
    } else {
        own_secret(signer, next_revocation - 1)
    }
}

impl Channel {
    ghost use Rattle.std.specs.Prelude.{◌≡◌, ◌+◌, ◌≤◌, ◌++◌, [], ◌∷◌, true, if◌then◌else◌, drop, map, Contains, IfOk, IfErr, OnErr};
    ghost use Rattle.updates.specs.declared.errors.ChannelError.TheVariants.{NoMemory};
    ghost use Rattle.terms.specs.Refusals.{OkUnless, IsFirst};
    ghost use Rattle.updates.specs.Refusals.{IsRefusal, first_refusal};
    ghost use Rattle.updates.specs.Stages.{uncommitted};
    ghost use Rattle.updates.specs.declared.messages.PeerStep.TheVariants.{CommitmentSigned};
    ghost use Rattle.channel.specs.declared.messages.Message.TheVariants.{Step};
    ghost use Rattle.channel.specs.declared.limits.TheConstants.{LAST_NUMBER as last_number};
    ghost use Rattle.terms.specs.Sides.{other};
    ghost use Rattle.channel.specs.Rights.{rights_of};
    ghost use Rattle.channel.specs.Tokens.{IsBuilt, peer_tokens as tokens_of};
    ghost use Rattle.channel.specs.Reestablishing.{forgotten, hello, last_signed, number_tests, hello_refusal, lacks_signature, lacks_revocation, signature_again, revocation_again, resends, IsAgain};

    /// Forgets the updates of both sides that no signature of their sender covers, as each side does once their connection is cut (BOLT 2, "Message
    /// Retransmission"). It returns the forgotten ones of this side, oldest first, so that the caller can make them again: an HTLC of which one fulfilment was
    /// forgotten can't be failed any more. The only error is NoMemory, which leaves the channel as it was.
    pub fn forget(&mut self) -> Result<Vec<Update>, ChannelError>
        ensures forgotten { IfOk result (λ us. us.items ≡ uncommitted self.old.held.own) }
        ensures ok { IfOk result (λ _. self.new ≡ forgotten self.old) }
        ensures none { IfErr result (λ e. e ≡ NoMemory) }
        ensures err { OnErr result (self.new ≡ self.old) }
    {
        match self.ledger.forget() {
            Ok(updates) => Ok(updates),
            Err(_) => Err(ChannelError::NoMemory),
        }
    }

    /// The same without an answer: it allocates nothing, so it can't be refused.
    pub fn drop_uncommitted(&mut self)
        ensures { self.new ≡ forgotten self.old }
    {
        self.ledger.drop_uncommitted();
    }

    /// What this side says first on a new connection. It takes at most 48 hashes.
    pub fn hello(&self) -> Reestablish
        ensures { result ≡ hello self.now }
    {
        let last = self.peer_number.saturating_sub(1);
        Reestablish {
            next_commitment: self.number + 1,
            next_revocation: self.peer_number,
            last_secret: self.peers_secret(last).unwrap_or(NO_SECRET),
        }
    }

    // The number of the newest commitment that this side signed.
    fn last_signed(&self) -> u64
        ensures number { result ≡ last_signed self.now }
        ensures bound { result ≤ last_number + 1 }
    {
        if self.awaiting {
            self.peer_number + 1
        } else {
            self.peer_number
        }
    }

    // Whether the peer expects what this side gives next, or gave last.
    fn check_numbers(&self, hello: &Reestablish) -> Result<(), ChannelError>
        requires { hello.now.next_revocation ≤ last_number + 1 }
        ensures { OkUnless result (first_refusal (number_tests self.now hello.now)) IsFirst }
    {
        if hello.next_revocation + 1 < self.number {
            return Err(ChannelError::PeerBehind);
        }
        if hello.next_commitment <= self.peer_number {
            return Err(ChannelError::PeerBehind);
        }
        if self.last_signed() + 1 < hello.next_commitment {
            return Err(ChannelError::NeverSigned);
        }
        Ok(())
    }

    // Whether the peer's hello is one that this side can go on from; a side that is behind goes on from none.
    fn check_hello(&self, hello: &Reestablish) -> Result<(), ChannelError>
        ensures { OkUnless result (hello_refusal self.now hello.now) IsFirst }
    {
        if hello.next_revocation > LAST_NUMBER + 1 {
            return Err(ChannelError::WrongSecret);
        }
        let expected = secret_before(&self.signer, hello.next_revocation);
        let last_secret = hello.last_secret;
        if last_secret != expected {
            return Err(ChannelError::WrongSecret);
        }
        if self.number < hello.next_revocation {
            return Ok(());
        }
        self.check_numbers(hello)
    }

    // The commitment of the newest signature, while its revocation is awaited.
    fn awaited(&self) -> &CommitmentState
        requires { self.now.awaiting ≡ true }
        ensures last { drop (self.now.peer_number + 1) self.now.signed ≡ result.now ∷ [] }
        ensures built { IsBuilt self.now.held.terms result.now }
        ensures owner { result.now.owner ≡ other self.now.held.side }
        ensures point { Contains (rights_of self.now).points result.now.point.bytes }
    {
        &self.signed[self.peer_number as usize + 1]
    }

    // The tokens of that signature. The only error is that memory ran out.
    fn tokens_again(&self) -> Result<Tokens, AllocError>
        requires { self.now.awaiting ≡ true }
        ensures { IfOk result (λ t. map (λ c. Step (CommitmentSigned (tokens_of self.now.held.terms c)))
            (drop (self.now.peer_number + 1) self.now.signed) ≡ Step (CommitmentSigned t) ∷ []) }
    {
        let alloc = *self.signed.allocator();
        let next = self.awaited();
        match sign_tokens(alloc, &self.signer, self.ledger.terms(), next) {
            Ok(tokens) => Ok(tokens),
            Err(_) => Err(AllocError),
        }
    }

    // Whether the peer lacks the newest signature.
    fn lacks_signature(&self, hello: &Reestablish) -> bool
        ensures lacks { result ≡ lacks_signature self.now hello.now }
        ensures waits { result ≡ true → self.now.awaiting ≡ true }
    {
        self.awaiting && hello.next_commitment == self.peer_number + 1
    }

    // Appends the signature that the peer lacks, after the updates that it covers. The only error is that memory ran out.
    fn push_signature(
        &self,
        hello: &Reestablish,
        messages: &mut Vec<Message>,
    ) -> Result<(), AllocError>
        ensures { IfOk result (λ _. messages.new.items ≡ messages.old.items
            ++ (if lacks_signature self.now hello.now then signature_again tokens_of self.now
            else [])) }
    {
        if !self.lacks_signature(hello) {
            return Ok(());
        }
        push_updates(messages, self.ledger.unacknowledged())?;
        let tokens = self.tokens_again()?;
        push_message(messages, Message::Step(PeerStep::CommitmentSigned(tokens)))
    }

    // Appends the revocation that the peer lacks. The only error is that memory ran out.
    fn push_revocation(
        &self,
        hello: &Reestablish,
        messages: &mut Vec<Message>,
    ) -> Result<(), AllocError>
        requires { hello.now.next_revocation ≤ last_number + 1 }
        ensures { IfOk result (λ _. messages.new.items ≡ messages.old.items
            ++ (if lacks_revocation self.now hello.now then revocation_again self.now else [])) }
    {
        if hello.next_revocation + 1 != self.number {
            return Ok(());
        }
        let secret = own_secret(&self.signer, self.number - 1);
        let next_point = own_point(&self.signer, self.number + 1);
        push_message(
            messages,
            Message::RevokeAndAck(Revocation { secret, next_point }),
        )
    }

    // What the peer lacks, in the order in which it first went out. The only error is that memory ran out.
    fn messages_again(&self, hello: &Reestablish) -> Result<Vec<Message>, AllocError>
        requires { hello.now.next_revocation ≤ last_number + 1 }
        ensures { IfOk result (λ v. v.items ≡ resends tokens_of self.now hello.now) }
    {
        let mut messages = Vec::new(*self.signed.allocator());
        if self.revoked_last {
            self.push_signature(hello, &mut messages)?;
            self.push_revocation(hello, &mut messages)?;
        } else {
            self.push_revocation(hello, &mut messages)?;
            self.push_signature(hello, &mut messages)?;
        }
        Ok(messages)
    }

    /// What this side gives again after its peer's hello, which may ask for the newest signature with its updates and for the newest revocation. It changes
    /// nothing, and whatever the hello, it gives nothing that did not go out before. Checked in this order:
    ///
    /// - WrongSecret: the peer does not have the secret of the number before the one that it expects next. Then it may not tell this side to be behind.
    /// - [`Again::Behind`]: it has the secret of this side's newest commitment.
    /// - PeerBehind: it expects what it had, and so lost what it knew. BOLT 2 lets it have an acknowledged signature again; here such a peer is behind.
    /// - NeverSigned: it has a signature that this side does not know of, and so this side lost what it knew.
    pub fn resend(&self, hello: &Reestablish) -> Result<Again, ChannelError>
        ensures ok { IfOk result (IsAgain tokens_of self.now hello.now) }
        ensures tested { OkUnless result (hello_refusal self.now hello.now) IsRefusal }
    {
        match self.check_hello(hello) {
            Ok(()) => {}
            Err(refusal) => return Err(refusal),
        }
        if self.number < hello.next_revocation {
            return Ok(Again::Behind);
        }
        match self.messages_again(hello) {
            Ok(messages) => Ok(Again::Send(messages)),
            Err(_) => Err(ChannelError::NoMemory),
        }
    }
}
