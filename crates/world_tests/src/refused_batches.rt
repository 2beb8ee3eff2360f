// Why claims are not released together: the texts of the errors, and their numbers.

use side::BatchError;
use std::alloc::Global;
use std::process::Abort;

const ERRORS: [(BatchError, &str, u8); 2] = [
    (BatchError::MixedChannels, "MixedChannels", 1),
    (BatchError::OverValue, "OverValue", 2),
];

fn is_told(rt: &impl Abort, alloc: Global, error: &BatchError, name: &str, number: u8) -> bool {
    let text = format!(in alloc; "{error}").expect(rt, "memory");
    text.as_str() == name && error.number() == number
}

#[test]
fn tells_why_claims_are_not_released_together(rt: HostRuntime) {
    for (error, name, number) in &ERRORS {
        assert!(rt; is_told(&rt, rt.alloc(), error, name, *number));
    }
}
