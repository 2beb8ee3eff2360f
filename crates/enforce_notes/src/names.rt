// Which names of a text a note may have, and what sides are called.

use terms::Side;

/// Whether a name can be written into a line: 1 to 40 characters of ASCII that are seen.
pub fn is_plain(name: &str) -> bool {
    !name.is_empty()
        && name.len() <= 40
        && name.as_bytes().iter().all(|byte| byte.is_ascii_graphic())
}

/// The letter of a side.
pub fn name_of(side: Side) -> &'static str {
    match side {
        Side::A => "A",
        Side::B => "B",
    }
}

/// Whose something is, said of a side.
pub fn owner_of(owner: Side, side: Side) -> &'static str {
    match owner {
        _ if owner == side => "its own",
        Side::A => "A's",
        Side::B => "B's",
    }
}
