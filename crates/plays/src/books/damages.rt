//! Dumps with one change.

use page::Page;
use std::alloc::Global;

/// The position of a value in a dump: after the first
/// call of this name, after these words, up to this end.
#[derive(Clone, Copy)]
pub struct Spot {
    pub call: &'static str,
    pub words: &'static str,
    pub end: &'static str,
}

/// The path of the first claim that is kept.
pub const PATH: Spot = Spot {
    call: "[\"keep\"",
    words: "\"path\":",
    end: ",",
};

/// The program of the first claim that is kept.
pub const PROGRAM: Spot = Spot {
    call: "[\"keep\"",
    words: "\"program\":\"",
    end: "\"",
};

/// The value of the first claim that is kept, in satoshis.
pub const VALUE: Spot = Spot {
    call: "[\"keep\"",
    words: "\"value\":",
    end: "}",
};

/// The path of the first claim that is released.
pub const RELEASED: Spot = Spot {
    call: "[\"release\"",
    words: "\"path\":",
    end: ",",
};

/// The satoshis of the first output of the released transaction.
pub const GIVEN: Spot = Spot {
    call: "[\"release\"",
    words: "}],[[",
    end: ",",
};

/// The secret of the first revocation.
pub const SECRET: Spot = Spot {
    call: "[\"revoke\",0",
    words: "[\"revoke\",\"",
    end: "\"",
};

/// The version of the dump.
pub const VERSION: Spot = Spot {
    call: "{\"history\":",
    words: "\"version\":",
    end: "}",
};

/// The value at a spot.
pub fn value_at<'a>(text: &'a str, spot: &Spot) -> Option<&'a str> {
    let (_, rest) = text.split_once(spot.call)?;
    let (_, rest) = rest.split_once(spot.words)?;
    let (value, _) = rest.split_once(spot.end)?;
    Some(value)
}

/// The text with a new value at a spot.
pub fn with_value(alloc: Global, text: &str, spot: &Spot, value: &str) -> Option<Page> {
    let (before, rest) = text.split_once(spot.call)?;
    let (between, rest) = rest.split_once(spot.words)?;
    let (_, after) = rest.split_once(spot.end)?;
    let mut changed = Page::new(alloc);
    changed.push(before);
    changed.push(spot.call);
    changed.push(between);
    changed.push(spot.words);
    changed.push(value);
    changed.push(spot.end);
    changed.push(after);
    Some(changed)
}

/// The beginning of an entry that keeps, and of one that signs.
const KEEP_ENTRY: &str = "{\"call\":[\"keep\"";

const SIGN_ENTRY: &str = "{\"call\":[\"sign\"";

/// The text without the first entry that keeps, and without
/// what follows it up to the next entry that signs.
pub fn without_keep(alloc: Global, text: &str) -> Option<Page> {
    let (before, rest) = text.split_once(KEEP_ENTRY)?;
    let (_, after) = rest.split_once(SIGN_ENTRY)?;
    let mut changed = Page::new(alloc);
    changed.push(before);
    changed.push(SIGN_ENTRY);
    changed.push(after);
    Some(changed)
}
