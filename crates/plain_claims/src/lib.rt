//! Claims as a text has them, accepted anew.
//!
//! A plain claim is what `texts` reads from JSON: the bytes of a script, the number of a path, what fills its slots, where the output stands, and the transaction
//! round it. Nothing of it is trusted. [`claim_of`] parses the script, lists its paths, and has the claim accepted, exactly where all three are taken
//! (`plain_claims::specs::Claims`).
//!
//! `script` parses, `paths` lists, and `claim` accepts. `book_dump` loads the claims of a dump by it, and the program `spend` those that it is given.
//!
//! ```rust
//! let claims = claims_of(alloc, plains)?;
//! ```
//!
//! `book_dump` calls it so. The test `accepts_claims_anew` of `book_tests` loads dumps with good and bad claims.
#![tactic(auto)]

mod accepting;
mod errors;

pub use accepting::{claim_of, claims_of};
pub use errors::ClaimError;
