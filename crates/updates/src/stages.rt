//! The updates of one side, and how many of them have reached each stage.

ghost use Rattle.std.specs.Prelude.{◌≡◌};
ghost use Rattle.updates.specs.Updates.{feerate_per_kw_set_by, later_feerate_per_kw};

use crate::changes::Update;
use std::alloc::{AllocError, Global};
use std::marker::Model;

/// The first updates of a side.
#[derive(Clone, Copy, Debug, Drop)]
pub(crate) struct Part {
    /// The number of updates.
    pub count: usize,
    /// The rate of the last change of the feerate among them.
    pub feerate_per_kw: Option<u32>,
}

/// A stage that updates reach. A commitment holds the updates that have reached a certain stage.
#[derive(Clone, Copy, Debug, Drop)]
pub(crate) enum Stage {
    Known,
    WithReceiver,
    PastReceiver,
    WithSender,
}

/// The updates of one side, and how many of them have reached each stage.
#[derive(Drop)]
pub(crate) struct UpdateList {
    updates: Vec<Update>,
    feerate_per_kw: Option<u32>,
    with_receiver: Part,
    past_receiver: Part,
    with_sender: Part,
    settled: Part,
}

impl Model for UpdateList {
    ghost use Rattle.std.specs.Prelude.{◌≡◌, ◌≤◌, length};
    ghost use Rattle.updates.specs.Updates.{newest_feerate_per_kw};
    ghost use Rattle.updates.specs.Stages.{Stages, stages_of, IsPartOf};

    ghost Value = { Stages };

    ghost view = { λ l. stages_of l.updates.items l.with_receiver.count l.past_receiver.count l.with_sender.count l.settled.count };

    ghost invariant = { λ l. (l.feerate_per_kw ≡ newest_feerate_per_kw l.updates.items)
        × (IsPartOf l.updates.items l.with_receiver)
        × (IsPartOf l.updates.items l.past_receiver)
        × (IsPartOf l.updates.items l.with_sender)
        × (IsPartOf l.updates.items l.settled) };
}

// The newest feerate, after one more update.
fn feerate_per_kw_after(feerate_per_kw: Option<u32>, update: &Update) -> Option<u32>
    ensures { result ≡ later_feerate_per_kw feerate_per_kw (feerate_per_kw_set_by update.now) }
{
    match update {
        Update::Fee { feerate_per_kw } => Some(*feerate_per_kw),
        _ => feerate_per_kw,
    }
}

const NONE_YET: Part = Part {
    count: 0,
    feerate_per_kw: None,
};

impl UpdateList {
    ghost use Rattle.std.specs.Prelude.{◌≡◌, IfOk, OnErr, length, List};
    ghost use Rattle.updates.specs.Stages.{none_yet, with_update, to_receiver, by_receiver, to_sender, by_sender, uncommitted, unacknowledged, committed, part_of, Counts};
    ghost use Rattle.updates.specs.Steady.{InOrder};

    /// No updates yet.
    pub(crate) fn new(alloc: Global) -> UpdateList
        ensures { result ≡ none_yet }
    {
        UpdateList {
            updates: Vec::new(alloc),
            feerate_per_kw: None,
            with_receiver: NONE_YET,
            past_receiver: NONE_YET,
            with_sender: NONE_YET,
            settled: NONE_YET,
        }
    }

    /// All updates that are known.
    pub(crate) fn known(&self) -> Part
        ensures { Counts result self.now.known }
    {
        Part {
            count: self.updates.len(),
            feerate_per_kw: self.feerate_per_kw,
        }
    }

    /// Those in the receiver's newest commitment.
    pub(crate) fn with_receiver(&self) -> Part
        ensures { Counts result self.now.with_receiver }
    {
        self.with_receiver
    }

    /// Those that the receiver's revocation acknowledged.
    pub(crate) fn past_receiver(&self) -> Part
        ensures { Counts result self.now.past_receiver }
    {
        self.past_receiver
    }

    /// Those in the sender's newest commitment.
    pub(crate) fn with_sender(&self) -> Part
        ensures { Counts result self.now.with_sender }
    {
        self.with_sender
    }

    /// Those that passed all five stages.
    pub(crate) fn settled(&self) -> Part
        ensures { Counts result self.now.settled }
    {
        self.settled
    }

    /// Those that have reached a stage.
    pub(crate) fn part(&self, stage: Stage) -> Part
        ensures { Counts result (part_of stage self.now) }
    {
        match stage {
            Stage::Known => self.known(),
            Stage::WithReceiver => self.with_receiver(),
            Stage::PastReceiver => self.past_receiver(),
            Stage::WithSender => self.with_sender(),
        }
    }

    /// The sender makes an update. The only error is that memory ran out, which leaves the list as it was.
    pub(crate) fn push(&mut self, update: Update) -> Result<(), AllocError>
        ensures ok { IfOk result (λ _. self.new ≡ with_update update self.old) }
        ensures err { OnErr result (self.new ≡ self.old) }
    {
        let feerate_per_kw = feerate_per_kw_after(self.feerate_per_kw, &update);
        self.updates.push(update)?;
        self.feerate_per_kw = feerate_per_kw;
        Ok(())
    }

    /// The sender signs the receiver's next commitment.
    pub(crate) fn to_receiver(&mut self)
        ensures { self.new ≡ to_receiver self.old }
    {
        self.with_receiver = Part {
            count: self.updates.len(),
            feerate_per_kw: self.feerate_per_kw,
        };
    }

    /// The receiver revokes its previous commitment.
    pub(crate) fn by_receiver(&mut self)
        ensures { self.new ≡ by_receiver self.old }
    {
        self.past_receiver = self.with_receiver;
    }

    /// The receiver signs the sender's next commitment.
    pub(crate) fn to_sender(&mut self)
        ensures { self.new ≡ to_sender self.old }
    {
        self.with_sender = self.past_receiver;
    }

    /// The sender revokes its previous commitment.
    pub(crate) fn by_sender(&mut self)
        ensures { self.new ≡ by_sender self.old }
    {
        self.settled = self.with_sender;
    }

    /// The updates under a signature of the sender that no revocation acknowledged.
    pub(crate) fn unacknowledged(&self) -> &[Update]
        requires { InOrder self.now }
        ensures { result.now ≡ unacknowledged self.now }
    {
        let known = self.updates.as_slice();
        &known[self.past_receiver.count..self.with_receiver.count]
    }

    /// A copy of the updates that no signature of the sender covers. The only error is that memory ran out.
    pub(crate) fn uncommitted(&self) -> Result<Vec<Update>, AllocError>
        ensures { IfOk result (λ us. us.items ≡ uncommitted self.now) }
    {
        let known = self.updates.as_slice();
        Vec::from_slice(
            *self.updates.allocator(),
            &known[self.with_receiver.count..],
        )
    }

    /// Forgets these. It allocates nothing.
    pub(crate) fn forget(&mut self)
        requires { InOrder self.old }
        ensures { self.new ≡ committed self.old }
    {
        self.updates.truncate(self.with_receiver.count);
        self.feerate_per_kw = self.with_receiver.feerate_per_kw;
    }
}
