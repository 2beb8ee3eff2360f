//! A node's book: the history of the calls that it accepted, and the gate that guards its signatures.
//!
//! [`Book`] has seven calls that may change it: `open`, `step`, `sign`, `revoke`, `keep`, `release` and `close`.
//! [`Book::call`] makes any of them, [`call_of`] the call of a peer's message, and [`message_of`] takes the message that a reply has for the peer. Each returns what `reply_of` says of the history, and leaves the history that `history_after`
//! says; if memory runs out, the history stays as it was. An accepted call adds one entry, and a refused one changes
//! nothing. The signing gate, [`laws::signing_is_guarded`], holds for each history: between each revocation and the
//! channel's next signature, the penalties of the revoked commitment were kept. [`Book::entries`] hands this out.
//! The crate `book_dump` writes it as a text, and loads the same history from it.
//! [`Book::release_again`] makes the call of a release anew, of an entry's claims that are left where another transaction
//! spent some of their outputs. [`Book::close`] closes a channel: it takes no signature from then on and gives none out, so that the commitment with
//! which it was closed stays the newest one ([`laws::what_is_closed_stays_closed`]).
//!
//! Long work is done outside the book. [`Book::revoked`] hands out the state from which a penalty set is built, and
//! [`Book::patterns`] the patterns by which it is built. [`Book::keep_set`] keeps the set that was built, as `keep`
//! does its claims. [`Book::known`] hands out what the node knows of a channel. [`filled`] fills a batch with any
//! signer, as `release` does with the channel's.
//!
//! `channel` does what each call says, and `filling` builds the transactions of a release. `side` stands between the
//! book and the chain, and `world` plays two books.
//!
//! ```rust
//! assert!(rt; a.revoke(0, 0, came).is_ok());
//! assert!(rt; matches!(a.sign(0, 0), Err(SignError::PenaltiesMissing(0))));
//! assert!(rt; a.keep(3, 0, 0, claims).is_ok());
//! assert!(rt; a.sign(0, 0).is_ok());
//! ```
//!
//! The test `signs_once_penalties_are_kept` of `book_tests` makes these calls. There, an update comes before the
//! first signature.
#![tactic(auto)]

mod acts;
mod again;
pub mod calling;
pub mod calls;
mod comparing;
pub mod errors;
mod flags;
mod fulfils;
pub mod history;
mod judging;
mod knowing;
pub mod laws;
mod limits;
pub mod matching;
mod open_channel;
mod releasing;
mod revoking;

pub use acts::{call_of, message_of};
pub use calling::Reply;
pub use calls::{Batch, Call, Entry, Opening, Step};
pub use history::Book;
pub use limits::MAX_CHANNELS;
pub use releasing::{FilledTwice, filled};
