//! The word `witness` of the program `trace`: what becomes of the inputs of a transaction, for programs (JSON) and for
//! people.
//!
//! The input has a transaction in hexadecimal on its first line, and on each line after it the output that an input
//! spends: its value in satoshis and its program in hexadecimal. [`run_words`] prints of each input which listed path its
//! witness takes, or at which opcode its script stops, why, and the stack there. It returns a status of at most 2. After
//! `--lines` each line of the input is such a text, and is answered before the next one is read. The verdicts are those of
//! `judge`, whose contract is exact. Their layout is tested, not proved.
//!
//! The crate `judge` judges the inputs. The program `trace` passes it the words.
//!
//! ```rust
//! let status = run_words(alloc, words, &mut input, &mut out);
//! ```
//!
//! Tested by `oracles/witnesses.py`, which makes the digests anew, and by the calls of `oracles/answers.py`.

mod causes;
mod errors;
mod hints;
mod lines;
mod reading;
mod telling;
mod words;

pub use words::{HELP, run_words};
