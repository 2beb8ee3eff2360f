// JSON values.
use json_value::{ReadError, Value};
use std::alloc::Global;
use std::process::Abort;

#[test]
fn reads_values(rt: HostRuntime) {
    let value = Value::from_str(rt.alloc(), r#"{"fee": [1, 2]}"#).expect(&rt, "JSON");
    let fee = value.member("fee").expect(&rt, "a member");
    assert_eq!(rt; fee.item(1).expect(&rt, "an item").as_u64(), Some(2));
}

// What a text has: how many items or members, and the number of the first or of the member `a`, if that is a whole one.
const ROWS: [(&str, usize, Option<u64>); 14] = [
    ("[]", 0, None),
    ("{}", 0, None),
    ("[18446744073709551615, 2]", 2, Some(u64::MAX)),
    ("[18446744073709551616]", 1, None),
    ("[-1]", 1, None),
    ("[-0]", 1, None),
    ("[1.0]", 1, None),
    ("[1e2]", 1, None),
    (r#"["1", null, true, false]"#, 4, None),
    (r#"{"b": 1, "a": 2}"#, 2, Some(2)),
    (r#"{"a": 1, "b": 2, "a": 3}"#, 2, Some(3)),
    (r#"{"\u0061": 4}"#, 1, Some(4)),
    (r#"{"A": 1}"#, 1, None),
    (" [ [1] , {\"a\": 7} ] ", 2, None),
];

// The number of items or members.
fn count(value: &Value) -> Option<usize> {
    match value.as_array() {
        Some(items) => Some(items.len()),
        None => Some(value.as_object()?.len()),
    }
}

fn first(value: &Value) -> Option<u64> {
    match value.as_array() {
        Some(_) => value.item(0)?.as_u64(),
        None => value.member("a")?.as_u64(),
    }
}

fn is_row(rt: &impl Abort, alloc: Global, row: &(&str, usize, Option<u64>)) -> bool {
    let value = Value::from_slice(alloc, row.0.as_bytes()).expect(rt, "JSON");
    count(&value) == Some(row.1) && first(&value) == row.2
}

#[test]
fn finds_items_and_members(rt: HostRuntime) {
    for row in &ROWS {
        assert!(rt; is_row(&rt, rt.alloc(), row), "{}", row.0);
    }
}

// RFC 8259 has none of these, and the last has a number that no float of 64 bits is near.
const REFUSED: [&str; 12] = [
    "",
    " ",
    "{",
    "[1,]",
    "[1 2]",
    "{\"a\":1,}",
    "{a:1}",
    "01",
    "+1",
    "nul",
    "[1] 2",
    "1e999",
];

fn refusal(alloc: Global, bytes: &[u8]) -> Option<ReadError> {
    Value::from_slice(alloc, bytes).err()
}

#[test]
fn refuses_what_is_not_json(rt: HostRuntime) {
    for text in &REFUSED {
        assert!(rt;
            refusal(rt.alloc(), text.as_bytes()) == Some(ReadError::NotJson),
            "{text}"
        );
    }
    assert!(rt; refusal(rt.alloc(), &[0x22, 0xff, 0x22]) == Some(ReadError::NotJson));
}

// Brackets that open `depth` arrays, and close them.
fn nested(rt: &impl Abort, alloc: Global, depth: usize) -> Option<ReadError> {
    let mut text = "[".repeat(alloc, depth).expect(rt, "memory");
    let end = "]".repeat(alloc, depth).expect(rt, "memory");
    text.push_str(end.as_str()).expect(rt, "memory");
    refusal(alloc, text.as_bytes())
}

#[test]
fn nests_127_deep(rt: HostRuntime) {
    assert_eq!(rt; nested(&rt, rt.alloc(), 127), None);
    assert_eq!(rt; nested(&rt, rt.alloc(), 128), Some(ReadError::NotJson));
}
