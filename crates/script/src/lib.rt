//! Scripts of Bitcoin: the opcodes of version 0 witness scripts (BIP 141), the bytes that spell them, and the
//! definitions of their runs.
//!
//! Barring out-of-memory, [`Script::parse`] is Ok exactly where the bytes are at most 10,000 and split into opcodes
//! of the table; else it names the first fault from the left. `specs/Clean.antt` says what a clean run is, in the
//! standard's own terms. [`laws::runs_are_exact`] says that the definitions which compute agree with it.
//!
//! `machine` runs a [`Script`] on a witness, and `paths` lists the ways through it. Both are proved against this
//! crate's one definition of a run.
//!
//! ```rust
//! let script = Script::parse(alloc, &[0x52, 0x75, 0xac])?; // 2 DROP CHECKSIG
//! assert_eq!(rt; script.ops().len(), 3);
//! assert_eq!(rt; script.counted(), 2);
//! assert!(rt; Script::parse(alloc, &[0xff]).is_err()); // no opcode has this byte
//! ```
//!
//! The test `reads_opcodes` of `script_tests` has these lines.
#![tactic(auto)]

pub mod branches;
pub mod jumps;
pub mod laws;
pub mod limits;
pub mod num;
pub mod opcode;
pub mod parse;
pub mod spending;
pub mod stops;
pub mod tokens;
pub mod truths;

pub use jumps::Jump;
pub use opcode::Op;
pub use parse::{ParseError, Script};
pub use spending::Spend;
pub use stops::{Cause, Kind};
