// Turns plain openings into openings.

ghost use Rattle.std.specs.Prelude.{◌≡◌};
ghost use Rattle.book.specs.Seeds.{bases_of};
ghost use Rattle.book_dump.specs.Openings.{own_or_others, terms_of, opening_of};

use book::Opening;
use keys::Signer;
use std::alloc::Global;
use terms::{BaseKeys, Side, Terms};
use texts::PlainOpening;

// The base keys of a seed.
fn bases_of(alloc: Global, seed: &[u8; 32]) -> BaseKeys
    ensures { result ≡ bases_of seed.now }
{
    let signer = Signer::new(alloc, seed);
    BaseKeys::of(&signer)
}

// A side's base keys: its own if the opening is this side's, else the peer's.
fn bases_at(whose: Side, side: Side, own: BaseKeys, others: BaseKeys) -> BaseKeys
    ensures { result ≡ own_or_others whose side own others }
{
    match (whose, side) {
        (Side::A, Side::A) | (Side::B, Side::B) => own,
        _ => others,
    }
}

// The terms with both sides' base keys.
fn terms_of(alloc: Global, plain: &PlainOpening) -> Option<Terms>
    ensures { result ≡ terms_of plain.now }
{
    let own = bases_of(alloc, &plain.seed);
    let a = bases_at(plain.side, Side::A, own, plain.bases);
    let b = bases_at(plain.side, Side::B, own, plain.bases);
    plain.terms.agreed(plain.funding, a, b)
}

/// The opening that a plain one stands for, with the base keys of its seed as
/// its own. `None` where the sides can't agree on the terms. Does not allocate.
pub fn opening_of(alloc: Global, plain: &PlainOpening) -> Option<Opening>
    ensures { result ≡ opening_of plain.now }
{
    let terms = terms_of(alloc, plain)?;
    Opening::new(
        alloc,
        terms,
        plain.side,
        plain.seed,
        plain.first_point,
        plain.next_point,
        plain.token,
    )
}
