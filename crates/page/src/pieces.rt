// The pieces of a template.

/// What stands in a place of a template. A text that stands in a JSON string has no characters that JSON escapes.
#[derive(Clone, Copy)]
pub enum Piece {
    /// A text as it is.
    Text(&'static str),
    /// A number.
    Count(u64),
    /// A sum of numbers.
    Sum(u128),
    /// 32 bytes in hexadecimal.
    Hash([u8; 32]),
}

impl Piece {
    /// True or false.
    pub fn flag(holds: bool) -> Piece {
        Piece::Text(if holds { "true" } else { "false" })
    }

    /// A number, or `null` if there is none.
    pub fn or_null(number: Option<u64>) -> Piece {
        match number {
            Some(number) => Piece::Count(number),
            None => Piece::Text("null"),
        }
    }
}
