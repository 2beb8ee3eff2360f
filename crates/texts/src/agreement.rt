//! The proposed terms of a channel, read from JSON.

use crate::allocating::ReadValue;
use crate::errors::ShapeError;
use crate::values::{FromValue, member, object_of};
use json_value::Value;
use std::alloc::Global;
use terms::{ProposedParty, ProposedTerms};

/// An object of seven members: `capacity`, `delay`, `dust`, `feerate`, `minimum`, `opener` and `start`.
impl FromValue for ProposedTerms {
    ghost use Rattle.texts.specs.Terms.{terms_of};

    ghost reads = { terms_of };

    #[tactic(auto, unfolding(crate::specs::Terms::terms_of))]
    fn from_value(value: &Value) -> Option<ProposedTerms> {
        let form = object_of(value, 7)?;
        let dust_sat: (u64, u64) = member(form, "dust")?;
        let delay_blocks: (u16, u16) = member(form, "delay")?;
        let minimum_msat: (u64, u64) = member(form, "minimum")?;
        let start_msat: (u64, u64) = member(form, "start")?;
        let a = ProposedParty {
            dust_sat: dust_sat.0,
            delay_blocks: delay_blocks.0,
            minimum_msat: minimum_msat.0,
            start_msat: start_msat.0,
        };
        let b = ProposedParty {
            dust_sat: dust_sat.1,
            delay_blocks: delay_blocks.1,
            minimum_msat: minimum_msat.1,
            start_msat: start_msat.1,
        };
        Some(ProposedTerms {
            capacity_sat: member(form, "capacity")?,
            opener: member(form, "opener")?,
            feerate_per_kw: member(form, "feerate")?,
            a,
            b,
        })
    }
}

impl ReadValue for ProposedTerms {
    ghost use Rattle.texts.specs.Terms.{terms_of};

    ghost reads = { terms_of };

    fn read_value(_alloc: Global, value: &Value) -> Result<ProposedTerms, ShapeError> {
        ProposedTerms::from_value(value).ok_or(ShapeError::BadShape)
    }
}
