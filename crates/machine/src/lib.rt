//! The machine that runs version 0 witness scripts (BIP 141), with the lock times of BIP 65 and BIP 112 and the
//! empty extra item of BIP 147.
//!
//! Barring out-of-memory, [`run`] is exactly the definition `outcome` of `script`. It is Ok with the counted
//! opcodes and the greatest number of elements on the stack where the run is clean, else the [`Stop`] with its
//! position and cause.
//!
//! `script` provides the opcodes, and `chain` uses this crate to run the script of each spent output. No crate
//! between `paths` and `filling` runs a script: what they promise about runs is proved against the same
//! definitions.
//!
//! The test `runs_the_script_of_a_key_hash` of `script_tests` runs a script.
#![tactic(auto)]

mod acts;
mod elements;
mod ends;
mod halts;
mod locks;
mod multisig;
mod progress;
mod runner;
mod skips;

pub use elements::elements_at;
pub use ends::{Run, Stop};
pub use locks::{is_age_reached, is_lock_reached};
pub use multisig::is_assigned;
pub use runner::run;
pub use script::Spend;
