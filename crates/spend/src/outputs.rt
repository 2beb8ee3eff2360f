// The outputs that a request spends.

ghost use Rattle.std.specs.Prelude.{◌≡◌, reverse};
ghost use Rattle.json_value.specs.View.{view, items_view};
ghost use Rattle.texts.specs.Values.{Gives, each_of};
ghost use Rattle.spend.specs.Outputs.{outpoint_in, place_in, output_of};

use claim::Place;
use json_value::Value;
use std::alloc::Global;
use texts::{PlainClaim, ShapeError, member, object_of, read_member};
use tx::OutPoint;

/// An id in the other byte order: explorers and nodes show the bytes of the hash from the last to the first.
pub fn reversed(mut txid: [u8; 32]) -> [u8; 32]
    ensures { result ≡ reverse txid }
{
    txid.reverse();
    txid
}

// The outpoint, by the member that says in which byte order its id stands.
fn outpoint_in(form: &Value) -> Option<OutPoint>
    ensures { result ≡ outpoint_in (view form.now) }
{
    match member::<OutPoint>(form, "explorer") {
        Some(shown) => Some(OutPoint {
            txid: reversed(shown.txid),
            index: shown.index,
        }),
        None => member(form, "outpoint"),
    }
}

// Reads where the output stands.
fn place_in(alloc: Global, form: &Value) -> Result<Place, ShapeError>
    ensures { Gives (λ p. p) result (place_in (view form.now)) }
{
    let Some(outpoint) = outpoint_in(form) else {
        return Err(ShapeError::BadShape);
    };
    let Some(value) = member::<u64>(form, "value") else {
        return Err(ShapeError::BadShape);
    };
    Ok(Place {
        outpoint,
        value,
        program: read_member(alloc, form, "program")?,
    })
}

// Reads an output: a claim as a book's dump has it, or with `explorer` in the place of `outpoint`.
#[tactic(auto, unfolding(crate::specs::Outputs::output_of))]
fn output_of(alloc: Global, value: &Value) -> Result<PlainClaim, ShapeError>
    ensures { Gives (λ c. c) result (output_of (view value.now)) }
{
    let Some(form) = object_of(value, 7) else {
        return Err(ShapeError::BadShape);
    };
    let Some(path) = member::<u64>(form, "path") else {
        return Err(ShapeError::BadShape);
    };
    Ok(PlainClaim {
        path: path as usize,
        script: read_member(alloc, form, "script")?,
        place: place_in(alloc, form)?,
        slots: read_member(alloc, form, "slots")?,
        shell: read_member(alloc, form, "shell")?,
    })
}

/// Reads outputs, in order.
pub fn outputs_of(alloc: Global, values: &[Value]) -> Result<Vec<PlainClaim>, ShapeError>
    ensures { Gives (λ xs. xs.items) result (each_of output_of (items_view values.now)) }
{
    let mut outputs = Vec::new(alloc);
    for value in values {
        outputs.push(output_of(alloc, value)?)?;
    }
    Ok(outputs)
}
