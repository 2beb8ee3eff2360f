// Fillings.

use claim::Place;
use lists::List;
use std::marker::Model;
use tx::Tx;

/// A transaction that spends the outputs of accepted claims, with their places. Only `fill` makes one. Each of its inputs runs clean.
#[derive(Drop)]
pub struct Filled {
    tx: Tx,
    places: List<Place>,
}

impl Model for Filled {
    ghost use Rattle.filling.specs.Filled.{Filling, AllRunClean};

    ghost Value = { Filling };

    ghost view = { λ f. record { tx = f.tx; places = f.places } };

    ghost invariant = { λ f. AllRunClean f.tx f.tx.inputs f.places };
}

impl Filled {
    ghost use Rattle.std.specs.Prelude.{◌≡◌};
    ghost use Rattle.filling.specs.Filled.{AllRunClean};

    // A transaction whose inputs run clean.
    pub(crate) fn new(tx: Tx, places: List<Place>) -> Filled
        requires { AllRunClean tx tx.inputs places }
        ensures { result ≡ record { tx = tx; places = places } }
    {
        Filled { tx, places }
    }

    /// The transaction. Each of its inputs runs clean at its place.
    pub fn tx(&self) -> &Tx
        ensures value { result.now ≡ self.now.tx }
        ensures clean { AllRunClean self.now.tx self.now.tx.inputs self.now.places }
    {
        // Borrowing both fields gives the prover the invariant.
        let _places = &self.places;
        &self.tx
    }

    /// The places of the outputs that the inputs spend, in the order of the inputs.
    pub fn places(&self) -> &[Place]
        ensures { result.now ≡ self.now.places }
    {
        self.places.values()
    }

    /// The transaction itself, taken out of the filling. Each of its inputs runs clean at its place.
    pub fn into_tx(self) -> Tx
        ensures value { result ≡ self.tx }
        ensures clean { AllRunClean self.tx self.tx.inputs self.places }
    {
        let Filled { tx, places: _ } = self;
        tx
    }
}
