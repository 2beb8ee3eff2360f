//! What a side holds of a channel's updates.

ghost use Rattle.std.specs.Prelude.{◌≡◌};

use crate::adding::add_update;
use crate::changes::Update;
use crate::checking::check_update;
use crate::errors::ChannelError;
use crate::pending::Pending;
use crate::shares::{feerate_per_kw_at, share_at, view_from};
use crate::stages::{Part, Stage, UpdateList};
use std::alloc::{AllocError, Global};
use std::marker::Model;
use terms::{Htlc, Side, Terms, View};

/// The two sides' updates, as one side of a channel holds them. A contract sees it as the terms, the side and both lists of updates with their
/// stages (`Held`).
///
/// It keeps every update, some 64 bytes each. The time of a call depends on the number of pending HTLCs, not on the number of updates.
#[derive(Drop)]
pub struct Ledger {
    terms: Terms,
    side: Side,
    own: UpdateList,
    theirs: UpdateList,
    // offered by this side, and by its peer
    own_htlcs: Pending,
    their_htlcs: Pending,
}

impl Model for Ledger {
    ghost use Rattle.updates.specs.Steady.{Held, IsLedger};

    ghost Value = { Held };

    ghost view = { λ l. record { terms = l.terms; side = l.side; own = l.own; theirs = l.theirs } };

    ghost invariant = { λ l. IsLedger (record { terms = l.terms; side = l.side; own = l.own; theirs = l.theirs }) l.own_htlcs l.their_htlcs };
}

impl Ledger {
    ghost use Rattle.std.specs.Prelude.{◌≡◌, IfOk, OnErr, length, take};
    ghost use Rattle.updates.specs.Shares.{IsPartAt, view_in, newest_view, IsSoundIn, IsNewestSound};
    ghost use Rattle.updates.specs.Updates.{offers};
    ghost use Rattle.updates.specs.declared.changes.Update.TheVariants.{Add, Fulfil, Fail, Fee};
    ghost use Rattle.terms.specs.Refusals.{OkUnless};
    ghost use Rattle.updates.specs.Refusals.{first_refusal, covers_nothing, IsRefusal};
    ghost use Rattle.updates.specs.Stages.{part_of, uncommitted, unacknowledged};
    ghost use Rattle.updates.specs.Steady.{Held, own_tests, their_tests, next_htlc, holding_none, holding_made, holding_signed, holding_update, holding_signature, holding_revocation, holding_committed};

    /// A ledger with no updates. It allocates nothing.
    pub fn new(alloc: Global, terms: Terms, side: Side) -> Ledger
        ensures { result ≡ holding_none terms side }
    {
        Ledger {
            terms,
            side,
            own: UpdateList::new(alloc),
            theirs: UpdateList::new(alloc),
            own_htlcs: Pending::new(alloc),
            their_htlcs: Pending::new(alloc),
        }
    }

    /// The terms of the channel.
    pub fn terms(&self) -> &Terms
        ensures { result.now ≡ self.now.terms }
    {
        &self.terms
    }

    /// Which side this is.
    pub fn side(&self) -> Side
        ensures { result ≡ self.now.side }
    {
        self.side
    }

    /// Whether this side may make an update, with the refusals of the call that makes it.
    pub fn check_own(&self, update: &Update) -> Result<(), ChannelError>
        ensures { OkUnless result (first_refusal (own_tests self.now update.now)) IsRefusal }
    {
        let settled = self.theirs.settled().count;
        let known = self.own.known().count;
        let (own, theirs) = (&self.own_htlcs, &self.their_htlcs);
        check_update(&self.terms, self.side, own, theirs, settled, known, update)
    }

    // Whether the peer may make an update.
    fn check_theirs(&self, update: &Update) -> Result<(), ChannelError>
        ensures { OkUnless result (first_refusal (their_tests self.now update.now)) IsRefusal }
    {
        let settled = self.own.settled().count;
        let known = self.theirs.known().count;
        let (theirs, own) = (&self.their_htlcs, &self.own_htlcs);
        let peer = self.side.other();
        check_update(&self.terms, peer, theirs, own, settled, known, update)
    }

    // Makes an update of one's own.
    fn make(&mut self, update: Update) -> Result<(), ChannelError>
        ensures ok { IfOk result (λ _. self.new ≡ holding_made update self.old) }
        ensures tested { OkUnless result (first_refusal (own_tests self.old update)) IsRefusal }
        ensures err { OnErr result (self.new ≡ self.old) }
    {
        self.check_own(&update)?;
        add_update(
            &mut self.own,
            &mut self.own_htlcs,
            &mut self.their_htlcs,
            update,
        )?;
        Ok(())
    }

    /// Offers an HTLC of `amount_msat` millisatoshis, and returns it with its id, the next one of this side. The refusals are checked in this order:
    /// WrongId (which cannot occur here), AmountZero, BelowMinimum, ExpiryTooLarge, TooManyHtlcs, OverBalance. A refusal leaves the ledger as it
    /// was.
    pub fn offer(
        &mut self,
        amount_msat: u64,
        hash: [u8; 32],
        expiry_height: u32,
    ) -> Result<Htlc, ChannelError>
        ensures htlc { IfOk result (λ h. h ≡ next_htlc self.old.own amount_msat hash expiry_height) }
        ensures ok { IfOk result (λ h. self.new ≡ holding_made (Add h) self.old) }
        ensures tested { OkUnless result
            (first_refusal (own_tests self.old (Add (next_htlc self.old.own amount_msat hash expiry_height))))
            IsRefusal }
        ensures err { OnErr result (self.new ≡ self.old) }
    {
        let htlc = Htlc {
            id: self.next_id(),
            amount_msat,
            hash,
            expiry_height,
        };
        self.make(Update::Add(htlc))?;
        Ok(htlc)
    }

    // The id of the next HTLC that this side offers.
    fn next_id(&self) -> u64
        ensures { result ≡ length (offers self.now.own.known) }
    {
        self.own_htlcs.offered
    }

    /// Fulfils an HTLC of the peer. The error is UnknownHtlc where the peer has no HTLC with this id that passed all stages and that nobody
    /// removed, else WrongPreimage. A refusal leaves the ledger as it was.
    pub fn fulfil(&mut self, id: u64, preimage: [u8; 32]) -> Result<(), ChannelError>
        ensures ok { IfOk result (λ _. self.new ≡ holding_made (Fulfil id preimage) self.old) }
        ensures tested { OkUnless result
            (first_refusal (own_tests self.old (Fulfil id preimage))) IsRefusal }
        ensures err { OnErr result (self.new ≡ self.old) }
    {
        self.make(Update::Fulfil { id, preimage })
    }

    /// Fails an HTLC of the peer. The error is UnknownHtlc where the peer has no HTLC with this id that passed all stages and that nobody
    /// removed. A refusal leaves the ledger as it was.
    pub fn fail(&mut self, id: u64) -> Result<(), ChannelError>
        ensures ok { IfOk result (λ _. self.new ≡ holding_made (Fail id) self.old) }
        ensures tested { OkUnless result (first_refusal (own_tests self.old (Fail id))) IsRefusal }
        ensures err { OnErr result (self.new ≡ self.old) }
    {
        self.make(Update::Fail { id })
    }

    /// Changes the feerate to `feerate_per_kw` satoshis per 1,000 units of weight. The error is NotOpener where this side did not open the channel. A
    /// refusal leaves the ledger as it was.
    pub fn set_fee(&mut self, feerate_per_kw: u32) -> Result<(), ChannelError>
        ensures ok { IfOk result (λ _. self.new ≡ holding_made (Fee feerate_per_kw) self.old) }
        ensures tested { OkUnless result (first_refusal (own_tests self.old (Fee feerate_per_kw))) IsRefusal }
        ensures err { OnErr result (self.new ≡ self.old) }
    {
        self.make(Update::Fee { feerate_per_kw })
    }

    /// Receives an update of the peer, with the same tests as for an update of one's own. A refusal leaves the ledger as it was.
    pub fn receive_update(&mut self, update: &Update) -> Result<(), ChannelError>
        ensures ok { IfOk result (λ _. self.new ≡ holding_update update.now self.old) }
        ensures tested { OkUnless result
            (first_refusal (their_tests self.old update.now)) IsRefusal }
        ensures err { OnErr result (self.new ≡ self.old) }
    {
        self.check_theirs(update)?;
        let (theirs, own) = (&mut self.their_htlcs, &mut self.own_htlcs);
        add_update(&mut self.theirs, theirs, own, *update)?;
        Ok(())
    }

    /// Whether a signature by this side would cover no new update (NoUpdates).
    pub fn signs_nothing(&self) -> bool
        ensures { result ≡ covers_nothing self.now.own self.now.theirs }
    {
        self.own.known().count == self.own.with_receiver().count
            && self.theirs.past_receiver().count == self.theirs.with_sender().count
    }

    /// Whether a signature by the peer would cover no new update.
    pub fn receives_nothing(&self) -> bool
        ensures { result ≡ covers_nothing self.now.theirs self.now.own }
    {
        self.theirs.known().count == self.theirs.with_receiver().count
            && self.own.past_receiver().count == self.own.with_sender().count
    }

    /// Records that this side sent a signature.
    pub fn sign(&mut self)
        ensures { self.new ≡ holding_signed self.old }
    {
        self.own.to_receiver();
        self.theirs.to_sender();
    }

    /// Records that a signature came and was answered by a revocation.
    pub fn receive_signature(&mut self)
        ensures { self.new ≡ holding_signature self.old }
    {
        self.theirs.to_receiver();
        self.theirs.by_receiver();
        self.own.to_sender();
        self.own.by_sender();
        let offered = self.theirs.known().count;
        let settled = self.own.settled().count;
        self.their_htlcs.settle(offered, settled);
    }

    /// Records that a revocation came.
    pub fn receive_revocation(&mut self)
        ensures { self.new ≡ holding_revocation self.old }
    {
        self.own.by_receiver();
        self.theirs.by_sender();
        let offered = self.own.known().count;
        let settled = self.theirs.settled().count;
        self.own_htlcs.settle(offered, settled);
    }

    /// This side's updates under its newest signature that the peer's revocation has not acknowledged yet, oldest first.
    pub fn unacknowledged(&self) -> &[Update]
        ensures { result.now ≡ unacknowledged self.now.own }
    {
        self.own.unacknowledged()
    }

    /// Forgets the updates of both sides that no signature of their sender covers, as each side does once their connection is cut (BOLT 2, "Message
    /// Retransmission"). It returns the forgotten ones of this side, oldest first. Their ids are given again. The only error is that memory ran out, which leaves
    /// the ledger as it was.
    pub fn forget(&mut self) -> Result<Vec<Update>, AllocError>
        ensures forgotten { IfOk result (λ us. us.items ≡ uncommitted self.old.own) }
        ensures ok { IfOk result (λ _. self.new ≡ holding_committed self.old) }
        ensures err { OnErr result (self.new ≡ self.old) }
    {
        let forgotten = self.own.uncommitted()?;
        self.drop_uncommitted();
        Ok(forgotten)
    }

    /// The same without an answer: it allocates nothing.
    pub fn drop_uncommitted(&mut self)
        ensures { self.new ≡ holding_committed self.old }
    {
        let own = self.own.with_receiver().count;
        let theirs = self.theirs.with_receiver().count;
        self.own.forget();
        self.theirs.forget();
        self.own_htlcs.forget(own, theirs);
        self.their_htlcs.forget(theirs, own);
    }

    // The view of these parts of this side's updates and its peer's. The only error is that memory ran out.
    fn view(&self, own: Part, theirs: Part) -> Result<View, AllocError>
        requires own { IsPartAt self.now.own own }
        requires theirs { IsPartAt self.now.theirs theirs }
        ensures { IfOk result (λ v. v ≡ view_in self.now (take own.count self.now.own.known)
            (take theirs.count self.now.theirs.known)) }
    {
        let start_msat = self.terms.party(self.side).start_msat;
        let peers_start_msat = self.terms.party(self.side.other()).start_msat;
        let (ours, peers) = (&self.own_htlcs, &self.their_htlcs);
        let mine = share_at(start_msat, ours, peers, own.count, theirs.count)?;
        let others = share_at(peers_start_msat, peers, ours, theirs.count, own.count)?;
        let feerate_per_kw = self.terms.feerate_per_kw;
        let feerate_per_kw = feerate_per_kw_at(
            self.side,
            self.terms.opener,
            feerate_per_kw,
            own.feerate_per_kw,
            theirs.feerate_per_kw,
        );
        Ok(view_from(self.side, mine, others, feerate_per_kw))
    }

    // The view of the updates that have reached these stages.
    fn view_at(&self, own: Stage, theirs: Stage) -> Result<View, AllocError>
        ensures value { IfOk result (λ v. v ≡ view_in self.now (part_of own self.now.own)
            (part_of theirs self.now.theirs)) }
        ensures sound { IsSoundIn self.now (part_of own self.now.own)
            (part_of theirs self.now.theirs) }
    {
        self.view(self.own.part(own), self.theirs.part(theirs))
    }

    /// The view of the peer's next commitment, which this side's next signature would cover. The only error is that memory ran out.
    pub fn view_to_sign(&self) -> Result<View, AllocError>
        ensures value { IfOk result (λ v. v
            ≡ view_in self.now self.now.own.known self.now.theirs.past_receiver) }
        ensures sound { IsSoundIn self.now self.now.own.known self.now.theirs.past_receiver }
    {
        self.view_at(Stage::Known, Stage::PastReceiver)
    }

    /// The view of this side's next commitment, which the peer's next signature has to cover. The only error is that memory ran out.
    pub fn view_to_receive(&self) -> Result<View, AllocError>
        ensures value { IfOk result (λ v. v ≡ view_in self.now self.now.own.past_receiver
            self.now.theirs.known) }
        ensures sound { IsSoundIn self.now self.now.own.past_receiver self.now.theirs.known }
    {
        self.view_at(Stage::PastReceiver, Stage::Known)
    }

    /// The view of a side's newest commitment; for the peer, the newest that this side signed. The only error is that memory ran out.
    pub fn view_of(&self, owner: Side) -> Result<View, AllocError>
        ensures value { IfOk result (λ v. v ≡ newest_view self.now owner) }
        ensures sound { IsNewestSound self.now owner }
    {
        if owner == self.side {
            self.view_at(Stage::WithSender, Stage::WithReceiver)
        } else {
            self.view_at(Stage::WithReceiver, Stage::WithSender)
        }
    }
}
