//! Claims, as read from JSON.

ghost use Rattle.std.specs.Prelude.{◌≡◌};
ghost use Rattle.json_value.specs.View.{view};
ghost use Rattle.texts.specs.Values.{Gives};
ghost use Rattle.texts.specs.Claims.{sig_of, preimage_of, exact_of};
ghost use Rattle.texts.specs.ClaimEnds.{Ends};

use crate::allocating::{ReadValue, bytes_of, read_item, read_member};
use crate::errors::ShapeError;
use crate::values::{array_of, item, member, object_of, tag_of};
use claim::{Place, Shell, Slot, WitnessItem};
use json_value::Value;
use lists::{ByteString, List};
use std::alloc::Global;
use tx::{DecodeError, decode_stripped};

/// A claim as read from JSON: the parts that `accept` takes, with the
/// bytes of the script in place of its paths. Nothing of it is tested yet.
#[derive(Debug, Drop)]
pub struct PlainClaim {
    /// The witness script of the claimed output.
    pub script: ByteString,
    /// The index of a path of the script.
    pub path: usize,
    /// How the path's slots are filled, the top of the stack first.
    pub slots: List<Slot>,
    /// Where the claimed output stands: its outpoint, value and program.
    pub place: Place,
    /// The transaction round the claim.
    pub shell: Shell,
}

#[tactic(auto, unfolding(crate::specs::Claims::sig_of))]
fn sig_of(value: &Value) -> Option<Slot>
    ensures { result ≡ sig_of (view value.now) }
{
    let form = array_of(value, 2)?;
    Some(Slot::Sig(item(form, 1)?))
}

#[tactic(auto, unfolding(crate::specs::Claims::preimage_of))]
fn preimage_of(value: &Value) -> Option<Slot>
    ensures { result ≡ preimage_of (view value.now) }
{
    let form = array_of(value, 2)?;
    Some(Slot::Preimage(item(form, 1)?))
}

#[tactic(auto, unfolding(crate::specs::Claims::exact_of))]
fn exact_of(alloc: Global, value: &Value) -> Result<Slot, ShapeError>
    ensures { Gives (λ s. s) result (exact_of (view value.now)) }
{
    let form = array_of(value, 2).ok_or(ShapeError::BadShape)?;
    Ok(Slot::Exact(read_item(alloc, form, 1)?))
}

/// A string of hexadecimal digits, for at most 520 bytes.
impl ReadValue for WitnessItem {
    ghost use Rattle.texts.specs.Claims.{witness_item_of};

    ghost reads = { witness_item_of };

    #[tactic(auto, using(crate::proofs::SameItems::no_item))]
    fn read_value(alloc: Global, value: &Value) -> Result<WitnessItem, ShapeError> {
        let bytes = bytes_of(alloc, value)?;
        match WitnessItem::new(ByteString::from_vec(bytes)) {
            Ok(item) => Ok(item),
            Err(_) => Err(ShapeError::BadShape),
        }
    }
}

/// An array of `sig` and a key, of `preimage` and a hash, or of `exact` and at most 520 bytes.
impl ReadValue for Slot {
    ghost use Rattle.texts.specs.Claims.{slot_of};

    ghost reads = { slot_of };

    #[tactic(auto, unfolding(crate::specs::Claims::slot_of, crate::specs::Claims::slot_named))]
    fn read_value(alloc: Global, value: &Value) -> Result<Slot, ShapeError> {
        let name = tag_of(value).ok_or(ShapeError::BadShape)?;
        if name == "sig" {
            sig_of(value).ok_or(ShapeError::BadShape)
        } else if name == "preimage" {
            preimage_of(value).ok_or(ShapeError::BadShape)
        } else if name == "exact" {
            exact_of(alloc, value)
        } else {
            Err(ShapeError::BadShape)
        }
    }
}

/// `null` for an open shell, or the bytes of the fixed transaction in the form over which its id is taken (BIP 141).
impl ReadValue for Shell {
    ghost use Rattle.texts.specs.Claims.{shell_of};

    ghost reads = { shell_of };

    #[tactic(auto, unfolding(crate::specs::Claims::shell_of))]
    fn read_value(alloc: Global, value: &Value) -> Result<Shell, ShapeError> {
        if value.is_null() {
            return Ok(Shell::Open);
        }
        let bytes = bytes_of(alloc, value)?;
        match decode_stripped(alloc, &bytes) {
            Ok(tx) => Ok(Shell::Fixed(tx)),
            Err(DecodeError::NoMemory) => Err(ShapeError::NoMemory),
            Err(_) => Err(ShapeError::BadShape),
        }
    }
}

// The members of a claim that are read last.
#[derive(Drop)]
struct ClaimEnd {
    script: ByteString,
    slots: List<Slot>,
    shell: Shell,
}

#[tactic(auto, unfolding(crate::specs::ClaimEnds::claim_from))]
fn read_end(alloc: Global, form: &Value) -> Result<ClaimEnd, ShapeError>
    ensures { Ends result (view form.now) }
{
    Ok(ClaimEnd {
        script: read_member(alloc, form, "script")?,
        slots: read_member(alloc, form, "slots")?,
        shell: read_member(alloc, form, "shell")?,
    })
}

/// An object of seven members: `outpoint`, `path`, `program`, `script`, `shell`, `slots` and `value`.
impl ReadValue for PlainClaim {
    ghost use Rattle.texts.specs.Claims.{claim_of};

    ghost reads = { claim_of };

    #[tactic(auto, unfolding(crate::specs::Claims::claim_of, crate::specs::ClaimEnds::claim_from))]
    fn read_value(alloc: Global, value: &Value) -> Result<PlainClaim, ShapeError> {
        let form = object_of(value, 7).ok_or(ShapeError::BadShape)?;
        let outpoint = member(form, "outpoint").ok_or(ShapeError::BadShape)?;
        let path: u64 = member(form, "path").ok_or(ShapeError::BadShape)?;
        let satoshis = member(form, "value").ok_or(ShapeError::BadShape)?;
        let program = read_member(alloc, form, "program")?;
        let place = Place {
            outpoint,
            value: satoshis,
            program,
        };
        let end = read_end(alloc, form)?;
        Ok(PlainClaim {
            script: end.script,
            path: path as usize,
            slots: end.slots,
            place,
            shell: end.shell,
        })
    }
}
