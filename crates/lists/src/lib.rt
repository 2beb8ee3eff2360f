//! Byte strings, lists and stacks, which contracts see as lists of values.
//!
//! [`ByteString`] is the list of its bytes, [`List`] the list of its values, and [`Stack`] the list of its values
//! with the top first. Each keeps the allocator that it was made with. Every call is exact: `push` on a stack that a
//! contract sees as `s` leaves `value ∷ s`, and one that runs out of memory leaves `s`.
//!
//! It depends on no other crate. `script` keeps pushed bytes in it, `machine` its stack, and `tx` the items of a
//! witness. The crates above them keep their lists in it.
//!
//! ```
//! let mut stack = Stack::new(rt.alloc());
//! stack.push(ByteString::from_slice(rt.alloc(), &[1, 2])?)?;
//! assert_eq!(rt; stack.pop().map_or(0, |top| top.len()), 2);
//! ```
//!
//! The test `the_top_comes_back_first` of `script_tests` has these lines.
#![tactic(auto)]

pub mod byte_strings;
pub mod sequences;
pub mod stacks;

pub use byte_strings::ByteString;
pub use sequences::List;
pub use stacks::Stack;
