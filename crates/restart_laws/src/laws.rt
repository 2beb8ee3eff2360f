//! Laws over the definitions alone.

ghost use Rattle.restart_laws.specs.Fulfilled.{FulfilledAreNotFailed};
ghost use Rattle.restart_laws.specs.Histories.{PutBackGoesOn, PutBackIsAnswered};

use channel::laws::peers_still_agree;

/// A side is put back to any state that it had, while its honest peer went on, and the connection is cut. Where the side takes its peer's hello and is not behind, honest peers reach this with nobody put back. So what the side
/// lost is as if it had been lost on the way: its peer takes its hello, and the two agree at each moment from there on. Meanwhile the side may have started again as every side may. So may its peer, while it had no secret of
/// that state's newest commitment. Where its peer has no such secret, the side takes the hello, unless the peer took a signature that the state does not know.
pub fn put_back_goes_on()
    ensures reached { PutBackGoesOn }
    ensures answered { PutBackIsAnswered }
{
    peers_still_agree();
}

/// A side that gave the fulfilment of an HTLC never fails that HTLC: its own `update_fail_htlc` is refused, since the preimage is out. This is so whatever comes and whatever is cut, also where the fulfilment was forgotten. And it
/// is so wherever the side starts again since it gave nothing out.
pub fn fulfilled_are_not_failed()
    ensures { FulfilledAreNotFailed }
{}
