//! What becomes of an input: which listed path its witness takes, or at which opcode its script stops, and why.
//!
//! The main contract is that of [`judge`]: an input runs clean, or stops at an opcode, exactly where the definition of a
//! run says so for what the output's program and the witness give to be run (`case_of`, by the definitions by which
//! `chain` takes transactions). The path is the first listed one that the witness meets (`met_path`), and the elements
//! are those that the definition has before that opcode.
//!
//! `machine` runs the scripts, and `paths` lists the ways. The program `trace` prints the verdicts.
//!
//! ```rust
//! /// What is said of the first input, if it spends this output.
//! fn first_verdict(alloc: Global, tx: &Tx, output: &TxOut) -> Result<Option<Verdict>, AllocError> {
//!     match tx.inputs().first() {
//!         Some(input) => {
//!             let cache = SighashCache::new(tx);
//!             Ok(Some(judge(alloc, tx, &cache, 0, input, output)?))
//!         }
//!         None => Ok(None),
//!     }
//! }
//! ```
//!
//! The test `names_the_path` of `chain_tests` calls this function.
#![tactic(auto)]

mod judging;
mod meeting;
mod verdicts;

pub use judging::judge;
pub use verdicts::{Clean, Fault, Stopped, Verdict};
