//! The two sides of a channel.

ghost use Rattle.std.specs.Prelude.{◌≡◌};

/// One of the two sides of a channel: a letter on which both nodes agree, neither who opened it (`Terms::opener`) nor who is local.
#[derive(Clone, Copy, Debug, PartialEq, Eq, Drop)]
pub enum Side {
    A,
    B,
}

impl Side {
    ghost use Rattle.std.specs.Prelude.{◌≡◌};
    ghost use Rattle.terms.specs.Sides.{other};

    /// The side's peer.
    pub fn other(self) -> Side
        ensures { result ≡ other self }
    {
        match self {
            Side::A => Side::B,
            Side::B => Side::A,
        }
    }
}
