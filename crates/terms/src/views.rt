//! What a commitment pays.

ghost use Rattle.std.specs.Prelude.{◌≡◌};

use crate::htlcs::Htlc;
use crate::sides::Side;
use lists::List;
use std::alloc::AllocError;

/// What a commitment gives to one side.
#[derive(Clone, Debug, Drop)]
pub struct Share {
    /// The balance in millisatoshis.
    pub balance_msat: u64,
    /// The HTLCs that the side offered and that are still live, in the order of their ids.
    pub offered: List<Htlc>,
}

/// What a commitment pays: to each side, and for the fee.
#[derive(Clone, Debug, Drop)]
pub struct View {
    pub a: Share,
    pub b: Share,
    /// The feerate in satoshis per 1,000 units of weight.
    pub feerate_per_kw: u32,
}

impl Share {
    ghost use Rattle.std.specs.Prelude.{◌≡◌, IfOk};

    /// An equal share. The only error is that memory ran out.
    pub fn copy(&self) -> Result<Share, AllocError>
        ensures { IfOk result (λ s. s ≡ self.now) }
    {
        self.clone()
    }
}

impl View {
    ghost use Rattle.std.specs.Prelude.{◌≡◌, IfOk};
    ghost use Rattle.terms.specs.Views.{share};

    /// What the view gives to a side.
    pub fn share(&self, side: Side) -> &Share
        ensures { result.now ≡ share side self.now }
    {
        match side {
            Side::A => &self.a,
            Side::B => &self.b,
        }
    }

    /// An equal view. The only error is that memory ran out.
    pub fn copy(&self) -> Result<View, AllocError>
        ensures { IfOk result (λ v. v ≡ self.now) }
    {
        self.clone()
    }
}
