//! Updates of a channel, as BOLT 2's messages have them.

ghost use Rattle.std.specs.Prelude.{◌≡◌};
ghost use Rattle.json_value.specs.View.{view};
ghost use Rattle.texts.specs.Messages.{add_of, fulfil_of, fail_of, fee_of};

use crate::values::{FromValue, array_of, item, tag_of};
use json_value::Value;
use terms::Htlc;
use updates::Update;

#[tactic(auto, unfolding(crate::specs::Messages::add_of))]
fn add_of(value: &Value) -> Option<Update>
    ensures { result ≡ add_of (view value.now) }
{
    let form = array_of(value, 5)?;
    Some(Update::Add(Htlc {
        id: item(form, 1)?,
        amount_msat: item(form, 2)?,
        hash: item(form, 3)?,
        expiry_height: item(form, 4)?,
    }))
}

#[tactic(auto, unfolding(crate::specs::Messages::fulfil_of))]
fn fulfil_of(value: &Value) -> Option<Update>
    ensures { result ≡ fulfil_of (view value.now) }
{
    let form = array_of(value, 3)?;
    Some(Update::Fulfil {
        id: item(form, 1)?,
        preimage: item(form, 2)?,
    })
}

#[tactic(auto, unfolding(crate::specs::Messages::fail_of))]
fn fail_of(value: &Value) -> Option<Update>
    ensures { result ≡ fail_of (view value.now) }
{
    let form = array_of(value, 2)?;
    Some(Update::Fail { id: item(form, 1)? })
}

#[tactic(auto, unfolding(crate::specs::Messages::fee_of))]
fn fee_of(value: &Value) -> Option<Update>
    ensures { result ≡ fee_of (view value.now) }
{
    let form = array_of(value, 2)?;
    Some(Update::Fee {
        feerate_per_kw: item(form, 1)?,
    })
}

/// An array of `add`, `fulfil`, `fail` or `fee`, and then the fields of the message.
impl FromValue for Update {
    ghost use Rattle.texts.specs.Messages.{update_of};

    ghost reads = { update_of };

    #[tactic(auto, unfolding(crate::specs::Messages::update_of, crate::specs::Messages::update_named))]
    fn from_value(value: &Value) -> Option<Update> {
        let name = tag_of(value)?;
        if name == "add" {
            add_of(value)
        } else if name == "fulfil" {
            fulfil_of(value)
        } else if name == "fail" {
            fail_of(value)
        } else if name == "fee" {
            fee_of(value)
        } else {
            None
        }
    }
}
