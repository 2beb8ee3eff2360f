//! Revoked commitments by their numbers.

ghost use Rattle.std.specs.Prelude.{◌≡◌, ◌++◌, ◌∷◌, [], length, nat_lt, IfOk, OnOk, OnErr};
ghost use Rattle.resolve.specs.Numbered.{with_kept};

use crate::errors::RevokedError;
use crate::known::RevokedCommitment;
use crate::numbers::MAX_NUMBER;
use std::alloc::{AllocError, Global};
use std::marker::Model;

/// The commitments that the peer revoked, by number: the first has number 0, and each has the number after the one before it. A contract sees them as the
/// list of these.
#[derive(Debug, Drop)]
pub struct RevokedCommitments {
    items: Vec<RevokedCommitment>,
}

impl Model for RevokedCommitments {
    ghost use Rattle.std.specs.Prelude.{List};
    ghost use Rattle.resolve.specs.declared.known.RevokedCommitment.{RevokedCommitment as Revoked};
    ghost use Rattle.resolve.specs.Numbered.{AreNumbered};

    ghost Value = { List Revoked };

    ghost view = { λ r. r.items.items };

    ghost invariant = { λ r. AreNumbered r.items.items };
}

// Copies of commitments.
fn copied(
    alloc: Global,
    commitments: &[RevokedCommitment],
) -> Result<Vec<RevokedCommitment>, AllocError>
    ensures { IfOk result (λ v. v.items ≡ commitments.now) }
{
    let mut copies = Vec::new(alloc);
    for commitment in commitments {
        copies.push(commitment.copy()?)?;
    }
    Ok(copies)
}

// Appends one.
fn push_to(
    commitments: &mut Vec<RevokedCommitment>,
    revoked: RevokedCommitment,
) -> Result<(), AllocError>
    ensures ok { OnOk result (commitments.new.items ≡ commitments.old.items ++ revoked ∷ []) }
    ensures err { OnErr result (commitments.new.items ≡ commitments.old.items) }
{
    commitments.push(revoked)?;
    Ok(())
}

// Marks the penalties of the commitment at an index as kept. The result is whether there is one.
#[tactic(auto, using(crate::proofs::Numbering::kept_at, crate::proofs::Numbering::kept_past))]
fn keep_at(commitments: &mut [RevokedCommitment], index: usize) -> bool
    ensures kept { commitments.new ≡ with_kept commitments.old index }
    ensures there { result ≡ nat_lt index (length commitments.old) }
{
    if index >= commitments.len() {
        return false;
    }
    commitments[index].keep();
    true
}

impl RevokedCommitments {
    ghost use Rattle.std.specs.Prelude.{◌≡◌, ◌++◌, ◌∷◌, [], true, length, nat_lt, slice_get, option_map, IfOk, IfErr, IfSome, OnOk, OnErr};
    ghost use Rattle.resolve.specs.Numbered.{AreNumbered, is_next, IsPushRefusal, with_kept};

    /// No commitments. It allocates nothing.
    pub fn new(alloc: Global) -> RevokedCommitments
        ensures { result ≡ [] }
    {
        RevokedCommitments {
            items: Vec::new(alloc),
        }
    }

    /// Appends the next one. WrongNumber if its number is not that of the next one, or is above `MAX_NUMBER`; else the only error is that memory ran out. A
    /// refusal leaves all as it was.
    #[tactic(auto, using(crate::proofs::Numbering::pushed))]
    pub fn push(&mut self, revoked: RevokedCommitment) -> Result<(), RevokedError>
        ensures pushed { OnOk result (self.new ≡ self.old ++ revoked ∷ []) }
        ensures next { OnOk result (is_next self.old revoked.state.number ≡ true) }
        ensures same { OnErr result (self.new ≡ self.old) }
        ensures err { IfErr result (IsPushRefusal self.old revoked) }
    {
        let number = revoked.state.number;
        if number != self.items.len() as u64 || number > MAX_NUMBER {
            return Err(RevokedError::WrongNumber);
        }
        push_to(&mut self.items, revoked)?;
        Ok(())
    }

    /// The commitment of a number, if there is one.
    pub fn get(&self, number: u64) -> Option<&RevokedCommitment>
        ensures value { option_map (λ r. r.now) result ≡ slice_get self.now number }
        ensures number { IfSome result (λ r. r.now.state.number ≡ number) }
    {
        self.items.get(number as usize)
    }

    /// The number of commitments, which is also the number of the next one.
    pub fn len(&self) -> usize
        ensures { result ≡ length self.now }
    {
        self.items.len()
    }

    /// All of them, the i-th with number i.
    pub fn values(&self) -> &[RevokedCommitment]
        ensures value { result.now ≡ self.now }
        ensures numbered { AreNumbered result.now }
    {
        self.items.as_slice()
    }

    /// Marks the penalties of a number as kept. The result is whether there is a commitment of that number. Marking it again changes nothing.
    #[tactic(auto, using(crate::proofs::Numbering::kept))]
    pub fn keep(&mut self, number: u64) -> bool
        ensures kept { self.new ≡ with_kept self.old number }
        ensures there { result ≡ nat_lt number (length self.old) }
    {
        keep_at(self.items.as_mut_slice(), number as usize)
    }

    /// A copy. The only error is that memory ran out.
    pub fn copy(&self) -> Result<RevokedCommitments, AllocError>
        ensures { IfOk result (λ r. r ≡ self.now) }
    {
        let items = copied(*self.items.allocator(), self.items.as_slice())?;
        Ok(RevokedCommitments { items })
    }
}
