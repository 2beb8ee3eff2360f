//! That the collections never fail under ample memory.

use lists::{ByteString, List, Stack};
use std::alloc::Global;
use std::process::Abort;
use std::test::Fail;

// The example in the documentation of `lists`.
#[test]
fn the_top_comes_back_first(rt: HostRuntime) -> Result<(), Fail> {
    let mut stack = Stack::new(rt.alloc());
    stack.push(ByteString::from_slice(rt.alloc(), &[1, 2])?)?;
    assert_eq!(rt; stack.pop().map_or(0, |top| top.len()), 2);
    Ok(())
}

const BYTES: [u8; 600] = [9; 600];

// Whether a copy of a string of these bytes has them too.
fn is_copied(rt: &impl Abort, alloc: Global, bytes: &[u8]) -> bool {
    let string = ByteString::from_slice(alloc, bytes).expect(rt, "memory");
    string.copy().expect(rt, "memory").bytes() == bytes
}

// The newest of the numbers from 0 up to a count, in a list and in a stack.
fn newest(rt: &impl Abort, alloc: Global, count: usize) -> (Option<usize>, Option<usize>) {
    let (mut list, mut stack) = (List::new(alloc), Stack::new(alloc));
    for number in 0..count {
        list.push(number).expect(rt, "memory");
        stack.push(number).expect(rt, "memory");
    }
    (list.values().last().copied(), stack.pop())
}

// No length fails under ample memory.
#[test]
fn finds_memory_for_every_length(rt: HostRuntime) {
    for len in 0usize..=600 {
        assert!(rt; is_copied(&rt, rt.alloc(), &BYTES[..len]));
    }
    assert!(rt; newest(&rt, rt.alloc(), 601) == (Some(600), Some(600)));
}
