//! What the words after `scenario` ask for.

use terms::Side;

/// What is written of a scenario.
#[derive(Clone, Copy)]
pub enum Wish {
    /// Its events, line by line.
    Lines,
    /// The same, with status 1 where an event was refused.
    Strictly,
    /// The dump of a side's book after its events.
    Dump(Side),
}

impl Wish {
    /// What words ask for; `None` for wrong words.
    pub fn read(words: &[String]) -> Option<Wish> {
        match words {
            [] => Some(Wish::Lines),
            [word] if word.as_str() == "--strict" => Some(Wish::Strictly),
            [word, side] if word.as_str() == "--dump" => {
                if side.as_str() == "A" {
                    Some(Wish::Dump(Side::A))
                } else if side.as_str() == "B" {
                    Some(Wish::Dump(Side::B))
                } else {
                    None
                }
            }
            _ => None,
        }
    }
}
