//! What a program reads from standard input, and what it writes, with the status that it ends with.
//!
//! [`read_all`] reads the whole input, which has a limit. [`write_told`] writes a page that is whole, [`write_refusal`] says in one JSON object why an input is
//! refused, and each of the writers returns the status that the program is to end with.
//!
//! It stands on `page`. The programs `spend` and `trace` read and write by it, and `enforce` reads its scenarios.
//!
//! ```rust
//! match read_all(alloc, input) {
//!     Ok(bytes) => tell(alloc, bytes.as_slice(), out),
//!     Err(InputError::NoMemory) => refuse_memory(out),
//!     Err(error) => write_refusal(alloc, out, error.text(), Some(u64::from(error.number()))),
//! }
//! ```
//!
//! The program `spend` begins so. What is printed then is tested by `real/test`, and what `trace` prints by `oracles/answers.py`.
#![tactic(auto)]

mod input;
mod replies;

pub use input::{InputError, MAX_INPUT, read_all};
pub use replies::{refuse_memory, write_refusal, write_told, written};
