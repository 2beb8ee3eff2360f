//! Scripts that are listed.

use anyhow::Result;
use paths::{Checked, check};
use script::Script;
use std::alloc::Global;

/// The ways to spend an output with this witness script.
pub fn list(alloc: Global, bytes: &[u8]) -> Result<Checked> {
    let script = Script::parse(alloc, bytes)?;
    Ok(check(alloc, script)?)
}

// Whether a script has two paths, of which the second one wants this age.
fn has_age(checked: &Checked, age: u16) -> bool {
    match checked.paths() {
        [first, second] => first.age.is_none() && second.age == Some(age),
        _ => false,
    }
}

fn is_refused(alloc: Global, bytes: &[u8]) -> bool {
    list(alloc, bytes).err().is_some()
}

// IF 1 ELSE 2 CHECKSEQUENCEVERIFY ENDIF.
const CHOICE: [u8; 6] = [0x63, 0x51, 0x67, 0x52, 0xb2, 0x68];

// An EQUAL of two items of the witness is undecided, and 0xff is no opcode.
#[test]
fn lists_scripts(rt: HostRuntime) {
    let checked = list(rt.alloc(), &CHOICE).expect(&rt, "a list");
    assert!(rt; has_age(&checked, 2));
    assert!(rt; is_refused(rt.alloc(), &[0x87]) && is_refused(rt.alloc(), &[0xff]));
}
