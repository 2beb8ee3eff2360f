//! The statements of the theorem, applied at their bounds: facts alone, and no code that runs. Each relation that `world::World::play`, a node's report and the laws of `channel`, `safety` and others speak
//! of has a fact where it just holds, and one right beside, where it does not: the block before a delay ends and the block of an expiry, the key, output, channel, side or number next to the right one.
//! Each field that holds at each moment is applied in a world that is given by its lists, so that each height, side and number in it is the one that is meant. Each table of numbers, as of refusals, is
//! stated once more.
//!
//! A slip in a definition that its code and its law share passes every proof. Here it meets a value that was worked out by hand. `.ci/reading.py --facts` lists the relations with their facts, and the gate
//! refuses one that has none, and a table of numbers without. The facts are in `proofs/`, and some are in those of lower crates, which are named.
#![tactic(auto)]
