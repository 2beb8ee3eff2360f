// The gate of the program.

use desk::{Desk, Seat};
use node::Gate;
use std::sync::Wait;

/// A gate that is always open.
pub(crate) struct Open;

impl Gate for Open {
    ghost stops = { λ _ _. ⊥ };

    #[tactic(auto, using(running::proofs::Same::same_calls))]
    fn before<R: Wait>(&self, _rt: &R, _ticket: u64, _desk: &Desk, seat: &mut Seat) {
        let _seat = &*seat;
    }

    #[tactic(auto, using(running::proofs::Same::same_calls))]
    fn after<R: Wait>(&self, _rt: &R, _ticket: u64, _desk: &Desk, seat: &mut Seat) {
        let _seat = &*seat;
    }
}
