//! Laws over the definitions alone.

ghost use Rattle.updates.specs.Steady.{ReceiversAccept};
ghost use Rattle.updates.specs.Remade.{UncommittedAreRemade};

/// An update that passes its sender's tests passes its receiver's: an honest update is never refused because of updates that are still on their
/// way. The premise is that the receiver knows the sender's updates at the same stages, and at least as many of its own, at the same stages or
/// later.
pub fn receivers_accept()
    ensures { ReceiversAccept }
{}

/// The updates of a side that no signature covers could be made again, one after another, once its connection was cut and both sides' uncommitted updates were
/// forgotten. So what a peer then receives again is never refused.
pub fn uncommitted_are_remade()
    ensures { UncommittedAreRemade }
{}
