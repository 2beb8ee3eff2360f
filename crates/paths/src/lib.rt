//! The verifier, which lists every way through a version 0 witness script (BIP 141).
//!
//! [`check`] follows each branch over symbols, and writes down what each opcode asks of the witness and of the spend.
//! A [`Path`] is all that one way through the script asks. Barring out-of-memory, the list is exactly the definition
//! `listing`. It is sound and exhaustive, whatever the witness and the spend. Whoever meets a listed path runs the
//! script clean, with that path's counted opcodes and height, and whoever runs it clean meets a listed path.
//! [`check_pattern`] lists a script with holes for keys, hashes and numbers once, and [`CheckedPattern::instance`]
//! fills the holes.
//!
//! `script` parses the bytes, and `facts` has the facts. `forms` lists the scripts of BOLT 3 as patterns, and `claim`
//! takes a [`Checked`] script with one of its paths.
//!
//! ```
//! // IF 1 ELSE 2 ENDIF
//! let script = Script::parse(rt.alloc(), &[0x63, 0x51, 0x67, 0x52, 0x68])?;
//! let checked = check(rt.alloc(), script)?;
//! assert_eq!(rt; checked.paths().len(), 2);
//! ```
//!
//! The test `lists_both_branches` of `claim_tests` checks this script.
#![tactic(auto)]

mod balance;
mod branch_opcodes;
mod comparison_opcodes;
mod constants;
mod copies;
mod ending;
mod errors;
mod filling;
mod greatest_locks;
pub mod laws;
mod listing;
mod lock_opcodes;
mod multisig;
mod patterns;
mod pieces;
mod rules;
mod signature_opcodes;
mod stack_opcodes;
mod state;
mod walking;

pub use errors::CheckError;
pub use facts::{Fact, KeySource, Stated, Sym};
pub use listing::{Checked, Way, check};
pub use patterns::{CheckedPattern, check_pattern};
pub use pieces::{Fill, InstanceError, PatternError, Piece};
pub use state::Path;
