//! Writers: each writes the value that
//! its reader reads back as the same.

ghost use Rattle.std.specs.Prelude.{◌≡◌, Some, map, length, IfOk, string_bytes};
ghost use Rattle.std.specs.List.{AllByRecursion};
ghost use Rattle.hex.specs.Hex.{encode_lower, IsBytes};
ghost use Rattle.serde_json.specs.Data.{Data, array};
ghost use Rattle.serde_json.specs.View.{view, items_of};
ghost use Rattle.updates.specs.declared.changes.Update.TheVariants.{Add};
ghost use Rattle.texts.specs.Values.{bytes_of, bytes_of_len};
ghost use Rattle.texts.specs.Messages.{update_of};
ghost use Rattle.texts.specs.Writing.{bytes_data, add_data};

use crate::compound::{ArrayWriter, ObjectWriter};
use lists::ByteString;
use serde_json::Value;
use std::alloc::{AllocError, Global};
use terms::{Htlc, ProposedTerms, Side};
use tx::TxOut;
use updates::Update;

/// A type that is written as a JSON value.
pub trait WriteValue {
    // the value that is written
    ghost writes: { Self → Data };

    // that the value is read back as the same
    ghost comes_back: { Self → Type 0 };

    /// Writes the value. The only error is that memory ran out.
    fn write_value(&self, alloc: Global) -> Result<Value, AllocError>
        ensures form { IfOk result (λ v. view v ≡ writes self.now) }
        ensures back { IfOk result (λ _. comes_back self.now) };
}

/// The bytes in hexadecimal, in lower case.
pub(crate) fn hexadecimal(alloc: Global, bytes: &[u8]) -> Result<String, AllocError>
    ensures text { IfOk result (λ s. string_bytes s ≡ encode_lower bytes.now) }
    ensures bytes { IsBytes bytes.now }
{
    hex::encode(alloc, bytes)
}

/// The bytes in hexadecimal, in lower case.
#[tactic(auto, using(crate::proofs::Returning::bytes_back, crate::proofs::Returning::sized_back))]
pub fn write_bytes(alloc: Global, bytes: &[u8]) -> Result<Value, AllocError>
    ensures form { IfOk result (λ v. view v ≡ bytes_data bytes.now) }
    ensures back { IfOk result (λ _. bytes_of (bytes_data bytes.now) ≡ Some bytes.now) }
    ensures sized { IfOk result (λ _. bytes_of_len (length bytes.now)
        (bytes_data bytes.now) ≡ Some bytes.now) }
{
    Ok(Value::String(hexadecimal(alloc, bytes)?))
}

/// An array of the values.
pub fn write_each<T: WriteValue>(alloc: Global, values: &[T]) -> Result<Value, AllocError>
    ensures form { IfOk result (λ v. view v ≡ array (items_of (map T.writes values.now))) }
    ensures back { IfOk result (λ _. AllByRecursion T.comes_back values.now) }
{
    let mut list = Vec::new(alloc);
    for value in values {
        list.push(value.write_value(alloc)?)?;
    }
    Ok(Value::Array(list))
}

/// The number.
impl WriteValue for u64 {
    ghost use Rattle.std.specs.Prelude.{◌≡◌, Some};
    ghost use Rattle.texts.specs.Values.{u64_of};
    ghost use Rattle.texts.specs.Writing.{number_data};

    ghost writes = { number_data };

    ghost comes_back = { λ n. u64_of (number_data n) ≡ Some n };

    fn write_value(&self, _alloc: Global) -> Result<Value, AllocError> {
        Ok(Value::from(*self))
    }
}

/// The number.
impl WriteValue for u32 {
    ghost use Rattle.std.specs.Prelude.{◌≡◌, Some};
    ghost use Rattle.texts.specs.Values.{u32_of};
    ghost use Rattle.texts.specs.Writing.{number_data};

    ghost writes = { number_data };

    ghost comes_back = { λ n. u32_of (number_data n) ≡ Some n };

    fn write_value(&self, _alloc: Global) -> Result<Value, AllocError> {
        Ok(Value::from(*self))
    }
}

/// The number.
impl WriteValue for u16 {
    ghost use Rattle.std.specs.Prelude.{◌≡◌, Some};
    ghost use Rattle.texts.specs.Values.{u16_of};
    ghost use Rattle.texts.specs.Writing.{number_data};

    ghost writes = { number_data };

    ghost comes_back = { λ n. u16_of (number_data n) ≡ Some n };

    fn write_value(&self, _alloc: Global) -> Result<Value, AllocError> {
        Ok(Value::from(*self))
    }
}

/// A string of hexadecimal digits.
impl WriteValue for [u8; 32] {
    ghost use Rattle.std.specs.Prelude.{◌≡◌, Some};
    ghost use Rattle.texts.specs.Values.{bytes_of_len};
    ghost use Rattle.texts.specs.Writing.{bytes_data};

    ghost writes = { bytes_data };

    ghost comes_back = { λ bytes. bytes_of_len 32 (bytes_data bytes) ≡ Some bytes };

    fn write_value(&self, alloc: Global) -> Result<Value, AllocError> {
        write_bytes(alloc, self)
    }
}

/// A string of hexadecimal digits.
impl WriteValue for ByteString {
    ghost use Rattle.std.specs.Prelude.{◌≡◌, Some};
    ghost use Rattle.texts.specs.Values.{bytes_of};
    ghost use Rattle.texts.specs.Writing.{bytes_data};

    ghost writes = { bytes_data };

    ghost comes_back = { λ bytes. bytes_of (bytes_data bytes) ≡ Some bytes };

    fn write_value(&self, alloc: Global) -> Result<Value, AllocError> {
        write_bytes(alloc, self.bytes())
    }
}

/// The string `A` or `B`.
impl WriteValue for Side {
    ghost use Rattle.std.specs.Prelude.{◌≡◌, Some};
    ghost use Rattle.texts.specs.Values.{side_of};
    ghost use Rattle.texts.specs.Writing.{side_data};

    ghost writes = { side_data };

    ghost comes_back = { λ s. side_of (side_data s) ≡ Some s };

    fn write_value(&self, alloc: Global) -> Result<Value, AllocError> {
        match self {
            Side::A => Value::try_from_str(alloc, "A"),
            Side::B => Value::try_from_str(alloc, "B"),
        }
    }
}

/// An array of two items, the one of side A first.
impl<T: WriteValue> WriteValue for (T, T) {
    ghost use Rattle.texts.specs.Writing.{pair_data};

    ghost writes = { pair_data T.writes };

    ghost comes_back = { λ p. T.comes_back p.0 × T.comes_back p.1 };

    fn write_value(&self, alloc: Global) -> Result<Value, AllocError> {
        let pair = ArrayWriter::new(alloc).item(&self.0)?.item(&self.1)?;
        Ok(pair.finish())
    }
}

/// An object of seven members.
impl WriteValue for ProposedTerms {
    ghost use Rattle.std.specs.Prelude.{◌≡◌, Some};
    ghost use Rattle.texts.specs.Terms.{terms_of};
    ghost use Rattle.texts.specs.Writing.{terms_data};

    ghost writes = { terms_data };

    ghost comes_back = { λ t. terms_of (terms_data t) ≡ Some t };

    #[tactic(auto, unfolding(crate::specs::Writing::terms_data))]
    fn write_value(&self, alloc: Global) -> Result<Value, AllocError> {
        let (a, b) = (&self.a, &self.b);
        let terms = ObjectWriter::new(alloc)
            .member("capacity", &self.capacity_sat)?
            .member("delay", &(a.delay_blocks, b.delay_blocks))?
            .member("dust", &(a.dust_sat, b.dust_sat))?
            .member("feerate", &self.feerate_per_kw)?
            .member("minimum", &(a.minimum_msat, b.minimum_msat))?
            .member("opener", &self.opener)?
            .member("start", &(a.start_msat, b.start_msat))?;
        Ok(terms.finish())
    }
}

/// An array of the value and the script.
impl WriteValue for TxOut {
    ghost use Rattle.std.specs.Prelude.{◌≡◌, Some};
    ghost use Rattle.texts.specs.Outputs.{output_of};
    ghost use Rattle.texts.specs.Writing.{output_data};

    ghost writes = { output_data };

    ghost comes_back = { λ o. output_of (output_data o) ≡ Some o };

    #[tactic(auto, unfolding(crate::specs::Writing::output_data), using(crate::proofs::Returning::output_again))]
    fn write_value(&self, alloc: Global) -> Result<Value, AllocError> {
        let output = ArrayWriter::new(alloc)
            .item(&self.value())?
            .item(self.script())?;
        Ok(output.finish())
    }
}

// Writes the message of an offered HTLC.
#[tactic(auto, unfolding(crate::specs::Writing::add_data), using(crate::proofs::Returning::add_again))]
fn write_add(alloc: Global, htlc: &Htlc) -> Result<Value, AllocError>
    ensures form { IfOk result (λ v. view v ≡ add_data htlc.now) }
    ensures back { IfOk result (λ _. update_of (add_data htlc.now) ≡ Some (Add htlc.now)) }
{
    let message = ArrayWriter::named(alloc, "add")?
        .item(&htlc.id)?
        .item(&htlc.amount_msat)?
        .item(&htlc.hash)?
        .item(&htlc.expiry_height)?;
    Ok(message.finish())
}

/// An array whose first item is the message's name.
impl WriteValue for Update {
    ghost use Rattle.std.specs.Prelude.{◌≡◌, Some};
    ghost use Rattle.texts.specs.Messages.{update_of};
    ghost use Rattle.texts.specs.Writing.{update_data};

    ghost writes = { update_data };

    ghost comes_back = { λ u. update_of (update_data u) ≡ Some u };

    #[tactic(auto, unfolding(crate::specs::Writing::update_data), using(crate::proofs::Returning::fulfil_again, crate::proofs::Returning::fail_again, crate::proofs::Returning::fee_again))]
    fn write_value(&self, alloc: Global) -> Result<Value, AllocError> {
        match self {
            Update::Add(htlc) => write_add(alloc, htlc),
            Update::Fulfil { id, preimage } => {
                let message = ArrayWriter::named(alloc, "fulfil")?
                    .item(id)?
                    .item(preimage)?;
                Ok(message.finish())
            }
            Update::Fail { id } => Ok(ArrayWriter::named(alloc, "fail")?.item(id)?.finish()),
            Update::Fee { feerate_per_kw } => Ok(
                ArrayWriter::named(alloc, "fee")?
                    .item(feerate_per_kw)?
                    .finish(),
            ),
        }
    }
}
