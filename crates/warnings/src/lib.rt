//! What is worth a warning about a text, the bytes of a script, and the paths through it.
//!
//! [`text_fault`] says why a text is not hexadecimal, and what it looks like. [`look_of`] says what bytes look like that are no witness script: the program of an output (BIP 16, 141
//! and 341), a transaction (BIP 144) or a PSBT (BIP 174), and [`length_before`] finds the length of a script before it. [`unknown_opcodes`] finds all bytes that stand for an opcode outside the table. [`taker_of`] says whether a path asks for a
//! signature of a key that is fixed, and [`takes_hashed_key`] whether it takes a key by its hash. [`lock_warnings`] finds the relative locks that ask for less than their number
//! says (BIP 68, BIP 112), and [`has_unreachable_lock`] says whether a path asks for a lock time by which no transaction is ever final (BIP 65, BIP 113). [`turned_locks`] finds the locks whose number seems to have its bytes turned round, [`doubtful_locks`] those that hold nobody up, or nearly for ever. [`greatest_units`] is how long a path waits where its relative lock is by time. [`is_offered_htlc`] knows the script of an HTLC that
//! a commitment offers (BOLT 3). Each answer is exactly its definition in `specs/`.
//!
//! `script` has the opcodes and `facts` the facts of a path. `script_notes` says in words what this crate finds.
//!
//! ```rust
//! assert_eq!(rt; look_of(&[0, 2, 7, 7]), Some(Look::WitnessProgram(0)));
//! assert_eq!(rt; sequence_lock(65_536), SequenceLock::Blocks(0));
//! ```
//!
//! The test `has_the_examples_of_the_crate` of `notes_tests` has these lines.
#![tactic(auto)]

mod doubts;
mod htlcs;
mod locks;
mod looks;
mod opcodes;
mod parts;
mod takers;
mod text_faults;

pub use doubts::{DoubtfulLock, LockDoubt, doubtful_locks};
pub use htlcs::is_offered_htlc;
pub use locks::{
    LockWarning, SequenceLock, TurnedLock, greatest_units, has_unreachable_lock, lock_warnings,
    sequence_lock, turned_locks,
};
pub use looks::{Look, length_before, look_of};
pub use opcodes::unknown_opcodes;
pub use takers::{Taker, taker_of, takes_hashed_key};
pub use text_faults::{TextFault, text_fault};
