//! The seeds of the two sides.

ghost use Rattle.std.specs.Prelude.{◌≡◌};

use terms::Side;

/// The two sides' seeds. Each channel's seed derives from them, and its keys from that seed.
#[derive(Clone, Copy, Debug, PartialEq, Eq, Drop)]
pub struct Seeds {
    pub a: [u8; 32],
    pub b: [u8; 32],
}

impl Seeds {
    ghost use Rattle.std.specs.Prelude.{◌≡◌};
    ghost use Rattle.scenario.specs.Seeds.{seed_of};

    /// The seed of a side.
    pub fn of(&self, side: Side) -> &[u8; 32]
        ensures { result.now ≡ seed_of side self.now }
    {
        match side {
            Side::A => &self.a,
            Side::B => &self.b,
        }
    }
}
