//! What becomes of HTLCs.

use crate::changes::Update;

/// What became of an HTLC.
#[derive(Clone, Copy, Debug, PartialEq, Eq, Drop)]
pub enum Fate {
    /// Nobody removed it.
    Live,
    Fulfilled,
    Failed,
}

/// The first update that removes an HTLC.
#[derive(Clone, Copy, Debug, PartialEq, Eq, Drop)]
pub enum End {
    Never,
    /// Its position among the updates of the side that removes, from 0, and what it makes of the
    /// HTLC.
    At { position: usize, fate: Fate },
}

impl Fate {
    ghost use Rattle.std.specs.Prelude.{◌≡◌};
    ghost use Rattle.updates.specs.Updates.{fate_by};

    /// What one update makes of the HTLC with this id.
    pub(crate) fn by(id: u64, update: &Update) -> Fate
        ensures { result ≡ fate_by id update.now }
    {
        match update {
            Update::Fulfil { id: i, .. } if *i == id => Fate::Fulfilled,
            Update::Fail { id: i } if *i == id => Fate::Failed,
            _ => Fate::Live,
        }
    }
}

impl End {
    ghost use Rattle.std.specs.Prelude.{◌≡◌};
    ghost use Rattle.updates.specs.Ends.{within, end_within, end_after};

    /// What the first `count` updates make of the HTLC.
    pub(crate) fn within(self, count: usize) -> Fate
        ensures { result ≡ within count self }
    {
        match self {
            End::Never => Fate::Live,
            End::At { position, fate } => { if position < count { fate } else { Fate::Live } }
        }
    }

    /// The end among the first `count` updates.
    pub(crate) fn before(self, count: usize) -> End
        ensures { result ≡ end_within count self }
    {
        match self {
            End::Never => End::Never,
            End::At { position, .. } => { if position < count { self } else { End::Never } }
        }
    }

    /// The end after one more update at `position`, which makes this of the HTLC.
    pub(crate) fn after(self, position: usize, fate: Fate) -> End
        ensures { result ≡ end_after position self fate }
    {
        match (self, fate) {
            (End::Never, Fate::Fulfilled | Fate::Failed) => End::At { position, fate },
            _ => self,
        }
    }
}
