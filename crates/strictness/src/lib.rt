//! Where the branches of a script end by a rule that is stricter than consensus.
//!
//! [`strict_ends`] follows the branches of a listed script. Where it finds that each of them ends as in consensus, no witness satisfies the script in consensus either: that is proved of a
//! machine in `specs/`, which has consensus' own rules for branches, numbers and signatures. [`fate_along`] follows one branch, by the way that it takes at each IF and NOTIF. Where it says at
//! which opcode that branch ends, and by which bytes, no run that goes this way satisfies the script in consensus: that is proved too.
//!
//! Tested in `notes_tests`, by the notes that `script_notes` writes.
#![tactic(auto)]

mod branches;
mod entries;
mod faults;
mod numbers;
mod signatures;
mod ways;

pub use branches::{Ends, Rule, StrictEnd, Turn, make_turn, strict_ends};
pub use entries::{Bytes, Entry};
pub use faults::Fault;
pub use signatures::is_der;
pub use ways::{Choice, DeadEnd, Fate, fate_along};
