//! What no clause of `script` says: the bytes that are opcodes, and that calls succeed under ample memory.

use lists::ByteString;
use script::{Op, ParseError, Script, num, truths};
use std::alloc::Global;
use std::process::Abort;
use std::test::Fail;

// The opcodes that are neither pushes nor small numbers, from Bitcoin's list.
const OTHERS: [u8; 15] = [
    0x63, 0x64, 0x67, 0x68, 0x75, 0x76, 0x7c, 0x82, 0x87, 0x88, 0xa9, 0xac, 0xae, 0xb1, 0xb2,
];

// Whether the bytes are a script, which then has a copy; otherwise the first byte must be one that no opcode has.
fn is_script(rt: &impl Abort, alloc: Global, bytes: &[u8]) -> bool {
    match Script::parse(alloc, bytes) {
        Ok(script) => {
            let copy = script.copy().expect(rt, "memory");
            assert!(rt; copy.bytes() == bytes);
            true
        }
        Err(refusal) => {
            assert!(rt; matches!(refusal, ParseError::BadOpcode(0)));
            false
        }
    }
}

// Each byte comes before 75 empty pushes, so a push of n bytes takes n of them.
#[test]
fn reads_the_opcodes_of_the_table_alone(rt: HostRuntime) {
    for byte in 0u8..=255 {
        let mut bytes = [0u8; 76];
        bytes[0] = byte;
        let known = byte <= 0x4b || (0x51..=0x60).contains(&byte) || OTHERS.contains(&byte);
        assert!(rt; is_script(&rt, rt.alloc(), &bytes) == known, "{byte}");
    }
}

const BYTES: [u8; 600] = [9; 600];

const OPS: [u8; 10_000] = [0x51; 10_000];

// Whether a push of these bytes has a copy.
fn is_copied(rt: &impl Abort, alloc: Global, bytes: &[u8]) -> bool {
    let push = Op::Push(ByteString::from_slice(alloc, bytes).expect(rt, "memory"));
    push.copy().expect(rt, "memory").payload_len() == bytes.len()
}

// Numbers of every length in bytes, with and without a byte for the sign.
const NUMBERS: [u64; 17] = [
    0,
    0x7f,
    0xff,
    0x7fff,
    0xffff,
    0x7f_ffff,
    0xff_ffff,
    0x7fff_ffff,
    0xffff_ffff,
    0x7f_ffff_ffff,
    0xff_ffff_ffff,
    0x7fff_ffff_ffff,
    0xffff_ffff_ffff,
    0x7f_ffff_ffff_ffff,
    0xff_ffff_ffff_ffff,
    0x7fff_ffff_ffff_ffff,
    u64::MAX,
];

#[test]
fn writes_and_copies_every_length(rt: HostRuntime) {
    let alloc = rt.alloc();
    for len in 0usize..=600 {
        assert!(rt; is_copied(&rt, alloc, &BYTES[..len]));
    }
    for len in (0usize..=10_000).step_by(613) {
        assert!(rt; is_script(&rt, alloc, &OPS[..len]));
    }
    for n in &NUMBERS {
        let item = num::write(alloc, *n).expect(&rt, "memory");
        assert!(rt; item.is_empty() == (*n == 0));
    }
    let flag = truths::flag(alloc, true).expect(&rt, "memory");
    assert!(rt; flag.bytes() == [1].as_slice());
}

// The example in the documentation of `script`.
#[test]
fn reads_opcodes(rt: HostRuntime) -> Result<(), Fail> {
    let alloc = rt.alloc();
    let script = Script::parse(alloc, &[0x52, 0x75, 0xac])?;
    assert_eq!(rt; script.ops().len(), 3);
    assert_eq!(rt; script.counted(), 2);
    assert!(rt; Script::parse(alloc, &[0xff]).is_err());
    Ok(())
}

const LONG: [u8; 10_001] = [0x50; 10_001];

const FAULTS: [(&[u8], ParseError); 7] = [
    (&[0x50], ParseError::BadOpcode(0)),
    (&[0x51, 0xb3], ParseError::BadOpcode(1)),
    (&[0x02, 0xff], ParseError::Truncated(0)),
    (&[0x51, 0x4b], ParseError::Truncated(1)),
    (&[0x4c, 0x01, 0xff], ParseError::BadOpcode(0)),
    (&LONG, ParseError::TooLong),
    (&[0x50; 10_000], ParseError::BadOpcode(0)),
];

// Whether the bytes are refused so.
fn is_refused(alloc: Global, bytes: &[u8], wanted: &ParseError) -> bool {
    match Script::parse(alloc, bytes) {
        Ok(_) => false,
        Err(refusal) => refusal == *wanted,
    }
}

#[test]
fn names_the_first_fault(rt: HostRuntime) {
    for (bytes, wanted) in &FAULTS {
        assert!(rt; is_refused(rt.alloc(), bytes, wanted));
    }
}
