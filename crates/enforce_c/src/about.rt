// The rows that refusals of spends are about.

ghost use Rattle.std.specs.Prelude.{◌≡◌};
ghost use Rattle.enforce_c.specs.declared.statuses.Refusal.TheVariants.{NoMemory};
ghost use Rattle.enforce_c.specs.About.{kind_of, row_of, about_of, refused_whole};

use crate::statuses::Refusal;
use std::alloc::{AllocError, AllocFailed};

/// The refusal is of the call as a whole.
pub const ABOUT_ALL: u32 = 0;
/// It is of the output whose row has the index `row`.
pub const ABOUT_OUTPUT: u32 = 1;
/// It is of the claim whose row has the index `row`. The number is what `enforce_claim` tells of it.
pub const ABOUT_CLAIM: u32 = 2;
/// It is of a signature of the input `row`. The number is the index of its item.
pub const ABOUT_SIGNATURE: u32 = 3;

/// What a refusal is about.
#[derive(Clone, Copy, Drop)]
pub enum About {
    Whole,
    OfOutput(usize),
    OfClaim(usize),
    OfSignature(usize),
}

impl About {
    /// One of the kinds of what a refusal is about.
    pub fn kind(&self) -> u32
        ensures { result ≡ kind_of self.now }
    {
        match self {
            About::Whole => ABOUT_ALL,
            About::OfOutput(_) => ABOUT_OUTPUT,
            About::OfClaim(_) => ABOUT_CLAIM,
            About::OfSignature(_) => ABOUT_SIGNATURE,
        }
    }

    /// The index of the row or the input; 0 where it is about none.
    pub fn row(&self) -> usize
        ensures { result ≡ row_of self.now }
    {
        match self {
            About::Whole => 0,
            About::OfOutput(index) => *index,
            About::OfClaim(index) => *index,
            About::OfSignature(index) => *index,
        }
    }
}

/// A refusal, and what it is about.
#[derive(Drop)]
pub struct Refused {
    pub why: Refusal,
    pub about: About,
}

/// What a refusal by itself is about: its signature, or the call as a whole.
pub(crate) fn about_of(why: &Refusal) -> About
    ensures { result ≡ about_of why.now }
{
    match why {
        Refusal::NoSignature(place) => About::OfSignature(place.input),
        Refusal::SignatureOutOfRange(place) => About::OfSignature(place.input),
        Refusal::NotDer(place) => About::OfSignature(place.input),
        Refusal::NotSighashAll(place) => About::OfSignature(place.input),
        Refusal::NotAsked(place) => About::OfSignature(place.input),
        _ => About::Whole,
    }
}

impl From<Refusal> for Refused {
    ghost from_gives = { λ why e. e ≡ refused_whole why };

    fn from(why: Refusal) -> Refused {
        let about = about_of(&why);
        Refused { why, about }
    }
}

impl From<AllocError> for Refused {
    ghost from_gives = { λ _ e. e ≡ refused_whole NoMemory };

    fn from(_error: AllocError) -> Refused {
        Refused {
            why: Refusal::NoMemory,
            about: About::Whole,
        }
    }
}

impl<T: Drop> From<AllocFailed<T>> for Refused {
    ghost from_gives = { λ _ e. e ≡ refused_whole NoMemory };

    fn from(_error: AllocFailed<T>) -> Refused {
        Refused {
            why: Refusal::NoMemory,
            about: About::Whole,
        }
    }
}
