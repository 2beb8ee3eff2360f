//! Updates that pass their tests.

ghost use Rattle.std.specs.Prelude.{◌≡◌, ◌≤◌, IfOk, OnErr, length};
ghost use Rattle.updates.specs.declared.changes.Update.TheVariants.{Add};
ghost use Rattle.updates.specs.Stages.{with_update};
ghost use Rattle.updates.specs.Pending.{IsGrown, IsNoted, IsAlike};

use crate::changes::Update;
use crate::fates::End;
use crate::pending::{Pending, PendingHtlc};
use crate::stages::UpdateList;
use std::alloc::AllocError;
use terms::Htlc;

// Adds an HTLC to the updates and to the pending HTLCs of its side. Memory for both is reserved before either changes.
fn push_add(list: &mut UpdateList, htlcs: &mut Pending, htlc: Htlc) -> Result<(), AllocError>
    requires { htlcs.old.offered ≤ length list.old.known }
    ensures list { IfOk result (λ _. list.new ≡ with_update (Add htlc) list.old) }
    ensures htlcs { IfOk result (λ _. IsGrown htlcs.old htlcs.new (length list.old.known)
        (Add htlc)) }
    ensures list_err { OnErr result (list.new ≡ list.old) }
    ensures htlcs_err { OnErr result (IsAlike htlcs.old htlcs.new) }
{
    let position = list.known().count;
    htlcs.htlcs.reserve(1)?;
    list.push(Update::Add(htlc))?;
    let pending = PendingHtlc {
        htlc,
        added: position,
        end: End::Never,
    };
    let Ok(()) = htlcs.htlcs.push(pending) else {
        unreachable!();
    };
    // The proof learns from the new count that one more fits.
    let _known = list.known().count;
    htlcs.offered += 1;
    Ok(())
}

/// Adds an update to the list of its side, and brings up to date what is kept of the HTLCs of both directions. The only error is that
/// memory ran out, which leaves all three as they were.
pub(crate) fn add_update(
    list: &mut UpdateList,
    htlcs: &mut Pending,
    peers: &mut Pending,
    update: Update,
) -> Result<(), AllocError>
    requires { htlcs.old.offered ≤ length list.old.known }
    ensures list { IfOk result (λ _. list.new ≡ with_update update list.old) }
    ensures htlcs { IfOk result (λ _. IsGrown htlcs.old htlcs.new (length list.old.known) update) }
    ensures peers { IfOk result (λ _. IsNoted peers.old peers.new (length list.old.known) update) }
    ensures list_err { OnErr result (list.new ≡ list.old) }
    ensures htlcs_err { OnErr result (IsAlike htlcs.old htlcs.new) }
    ensures peers_err { OnErr result (IsAlike peers.old peers.new) }
{
    let position = list.known().count;
    match update {
        Update::Add(htlc) => push_add(list, htlcs, htlc)?,
        _ => list.push(update)?,
    }
    peers.note(position, &update);
    Ok(())
}
