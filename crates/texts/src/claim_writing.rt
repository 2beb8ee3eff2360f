//! Writers of claims.

use crate::compound::{ArrayWriter, ObjectWriter};
use crate::writing::{WriteValue, hexadecimal, write_bytes};
use claim::{Claim, Shell, Slot, WitnessItem};
use serde_json::Value;
use std::alloc::{AllocError, Global};
use tx::{OutPoint, encode_stripped};

/// The string `txid:index`.
impl WriteValue for OutPoint {
    ghost use Rattle.std.specs.Prelude.{◌≡◌, Some};
    ghost use Rattle.texts.specs.Outpoints.{outpoint_of};
    ghost use Rattle.texts.specs.ClaimWriting.{outpoint_data};

    ghost writes = { outpoint_data };

    ghost comes_back = { λ o. outpoint_of (outpoint_data o) ≡ Some o };

    #[tactic(auto, unfolding(crate::specs::ClaimWriting::outpoint_data), using(crate::proofs::ClaimReturning::outpoint_again))]
    fn write_value(&self, alloc: Global) -> Result<Value, AllocError> {
        let txid = hexadecimal(alloc, &self.txid)?;
        let index = self.index;
        Ok(Value::String(format!(in alloc; "{txid}:{index}")?))
    }
}

/// A string of hexadecimal digits.
impl WriteValue for WitnessItem {
    ghost use Rattle.std.specs.Prelude.{◌≡◌, Some};
    ghost use Rattle.texts.specs.Writing.{bytes_data};
    ghost use Rattle.texts.specs.Claims.{witness_item_of};

    ghost writes = { λ w. bytes_data w.item };

    ghost comes_back = { λ w. witness_item_of (bytes_data w.item) ≡ Some w };

    #[tactic(auto, using(crate::proofs::ClaimReturning::item_again))]
    fn write_value(&self, alloc: Global) -> Result<Value, AllocError> {
        write_bytes(alloc, self.item.bytes())
    }
}

/// An array of the filling's name and its bytes.
impl WriteValue for Slot {
    ghost use Rattle.std.specs.Prelude.{◌≡◌, Some};
    ghost use Rattle.texts.specs.Claims.{slot_of};
    ghost use Rattle.texts.specs.ClaimWriting.{slot_data};

    ghost writes = { slot_data };

    ghost comes_back = { λ s. slot_of (slot_data s) ≡ Some s };

    #[tactic(auto, unfolding(crate::specs::ClaimWriting::slot_data), using(crate::proofs::ClaimReturning::sig_again, crate::proofs::ClaimReturning::preimage_again, crate::proofs::ClaimReturning::exact_again))]
    fn write_value(&self, alloc: Global) -> Result<Value, AllocError> {
        let slot = match self {
            Slot::Sig(key) => ArrayWriter::named(alloc, "sig")?.item(key),
            Slot::Preimage(hash) => ArrayWriter::named(alloc, "preimage")?.item(hash),
            Slot::Exact(item) => ArrayWriter::named(alloc, "exact")?.item(item),
        };
        Ok(slot?.finish())
    }
}

/// `null`, or the bytes of the fixed transaction without marker, flag and witnesses.
impl WriteValue for Shell {
    ghost use Rattle.std.specs.Prelude.{◌≡◌, Some};
    ghost use Rattle.texts.specs.Claims.{shell_of};
    ghost use Rattle.claim.specs.Claims.{IsBare};
    ghost use Rattle.texts.specs.ClaimWriting.{shell_data};

    ghost writes = { shell_data };

    ghost comes_back = { λ s. IsBare s → shell_of (shell_data s) ≡ Some s };

    #[tactic(auto, unfolding(crate::specs::ClaimWriting::shell_data), using(crate::proofs::ClaimReturning::bare_again, crate::proofs::ClaimReturning::open_again))]
    fn write_value(&self, alloc: Global) -> Result<Value, AllocError> {
        match self {
            Shell::Open => Ok(Value::Null),
            Shell::Fixed(tx) => {
                // The proof learns from its parts that the transaction has its limits.
                let _ = (tx.version(), tx.lock_time());
                let _ = tx.inputs();
                let _ = tx.outputs();
                write_bytes(alloc, &encode_stripped(alloc, tx)?)
            }
        }
    }
}

/// An object of seven members, with the script in place of its paths.
impl WriteValue for Claim {
    ghost use Rattle.std.specs.Prelude.{◌≡◌, Some};
    ghost use Rattle.texts.specs.Claims.{claim_of};
    ghost use Rattle.texts.specs.ClaimWriting.{claim_data, plain_claim};

    ghost writes = { claim_data };

    ghost comes_back = { λ c. claim_of (claim_data c) ≡ Some (plain_claim c) };

    #[tactic(auto, unfolding(crate::specs::ClaimWriting::claim_data), using(crate::proofs::ClaimReturning::claim_again))]
    fn write_value(&self, alloc: Global) -> Result<Value, AllocError> {
        let place = self.place();
        let claim = ObjectWriter::new(alloc)
            .member("outpoint", &place.outpoint)?
            .member("path", &(self.index() as u64))?
            .member("program", &place.program)?
            .bytes("script", self.script())?
            .member("shell", self.shell())?
            .each("slots", self.slots())?
            .member("value", &place.value)?;
        Ok(claim.finish())
    }
}
