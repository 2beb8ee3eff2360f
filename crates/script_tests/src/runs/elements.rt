//! The elements on the way of a run, worked by hand.

use super::{FIRST, SECOND, SPEND, witness_of};
use lists::{ByteString, Stack};
use machine::elements_at;
use script::Script;
use std::alloc::Global;
use std::process::Abort;

// The to_local output of BOLT 3, with a delay of 144 blocks: IF key ELSE 144 CHECKSEQUENCEVERIFY DROP key ENDIF CHECKSIG.
const TO_LOCAL: [u8; 77] = [
    0x63, 0x21, 0x02, 0x11, 0x11, 0x11, 0x11, 0x11, 0x11, 0x11, 0x11, 0x11, 0x11, 0x11, 0x11, 0x11,
    0x11, 0x11, 0x11, 0x11, 0x11, 0x11, 0x11, 0x11, 0x11, 0x11, 0x11, 0x11, 0x11, 0x11, 0x11, 0x11,
    0x11, 0x11, 0x11, 0x67, 0x02, 0x90, 0x00, 0xb2, 0x75, 0x21, 0x02, 0x22, 0x22, 0x22, 0x22, 0x22,
    0x22, 0x22, 0x22, 0x22, 0x22, 0x22, 0x22, 0x22, 0x22, 0x22, 0x22, 0x22, 0x22, 0x22, 0x22, 0x22,
    0x22, 0x22, 0x22, 0x22, 0x22, 0x22, 0x22, 0x22, 0x22, 0x22, 0x22, 0x68, 0xac,
];

const REVOKER: [u8; 33] = [
    0x02, 0x11, 0x11, 0x11, 0x11, 0x11, 0x11, 0x11, 0x11, 0x11, 0x11, 0x11, 0x11, 0x11, 0x11, 0x11,
    0x11, 0x11, 0x11, 0x11, 0x11, 0x11, 0x11, 0x11, 0x11, 0x11, 0x11, 0x11, 0x11, 0x11, 0x11, 0x11,
    0x11,
];

const OWNER: [u8; 33] = [
    0x02, 0x22, 0x22, 0x22, 0x22, 0x22, 0x22, 0x22, 0x22, 0x22, 0x22, 0x22, 0x22, 0x22, 0x22, 0x22,
    0x22, 0x22, 0x22, 0x22, 0x22, 0x22, 0x22, 0x22, 0x22, 0x22, 0x22, 0x22, 0x22, 0x22, 0x22, 0x22,
    0x22,
];

// A witness, and the elements before each opcode and at the end, the top first; `None` where the run stops before.
type Row = (
    &'static [&'static [u8]],
    &'static [Option<&'static [&'static [u8]]>],
);

// Both ways through its nine opcodes; in a branch that does not run the elements stay as they are. With no item for IF,
// the run stops at once: there are elements before it, and none behind it.
const ROWS: [Row; 3] = [
    (
        &[&FIRST, &[1]],
        &[
            Some(&[&[1], &FIRST]),
            Some(&[&FIRST]),
            Some(&[&REVOKER, &FIRST]),
            Some(&[&REVOKER, &FIRST]),
            Some(&[&REVOKER, &FIRST]),
            Some(&[&REVOKER, &FIRST]),
            Some(&[&REVOKER, &FIRST]),
            Some(&[&REVOKER, &FIRST]),
            Some(&[&REVOKER, &FIRST]),
            Some(&[&[1]]),
            None,
        ],
    ),
    (
        &[&SECOND, &[]],
        &[
            Some(&[&[], &SECOND]),
            Some(&[&SECOND]),
            Some(&[&SECOND]),
            Some(&[&SECOND]),
            Some(&[&[0x90, 0], &SECOND]),
            Some(&[&[0x90, 0], &SECOND]),
            Some(&[&SECOND]),
            Some(&[&OWNER, &SECOND]),
            Some(&[&OWNER, &SECOND]),
            Some(&[&[1]]),
            None,
        ],
    ),
    (&[], &[Some(&[]), None]),
];

// Whether these elements stand on a stack, the top first.
fn are_on(stack: &Stack<ByteString>, wanted: &[&[u8]]) -> bool {
    for (element, item) in stack.values().iter().rev().zip(wanted) {
        if element.bytes() != *item {
            return false;
        }
    }
    stack.len() == wanted.len()
}

// Whether these elements stand at an index.
fn stands(
    rt: &impl Abort,
    alloc: Global,
    items: &[&[u8]],
    index: usize,
    wanted: Option<&[&[u8]]>,
) -> bool {
    let witness = witness_of(rt, alloc, items);
    let script = Script::parse(alloc, &TO_LOCAL).expect(rt, "a script");
    let found = elements_at(alloc, &script, &witness, &SPEND, index).expect(rt, "memory");
    match (&found, wanted) {
        (Some(stack), Some(wanted)) => are_on(stack, wanted),
        (found, wanted) => found.is_none() && wanted.is_none(),
    }
}

#[test]
fn elements_on_both_ways_of_a_to_local(rt: HostRuntime) {
    for (items, elements) in &ROWS {
        for (index, wanted) in elements.iter().enumerate() {
            assert!(rt; stands(&rt, rt.alloc(), items, index, *wanted), "{index}");
        }
    }
}
