// Whether a text has a name twice in one object, and which.

ghost use Rattle.std.specs.Prelude.{◌↔◌, IsSome, IsTrue, IsSomeAnd, IfOk};
ghost use Rattle.json.specs.Json.{document};
ghost use Rattle.json.specs.Strict.{HasUniqueKeys};
ghost use Rattle.json_names.specs.Repeats.{RepeatsMember};

use json::{Error, Reader, Scratch, Token, Value};
use std::alloc::{AllocError, Global};
use std::collections::BTreeSet;

/// A member whose name stands before it in its object.
#[derive(Debug, Drop)]
pub struct RepeatedMember {
    /// Its name, with escapes undone.
    pub name: String,
    /// The byte of the text at which the name begins, with its quote.
    pub at: usize,
}

// Whether an object of the text has a name twice.
fn repeats(alloc: Global, text: &str) -> Result<bool, AllocError>
    ensures { IfOk result (λ b. IsTrue b ↔ IsSomeAnd (document text.now)
        (λ j. ¬ HasUniqueKeys j)) }
{
    let mut scratch = Scratch::new(alloc);
    match Value::parse_strict(alloc, text, &mut scratch) {
        Ok(_) => Ok(false),
        Err(error) => match error {
            Error::DuplicateKey => Ok(true),
            Error::OutOfMemory => Err(AllocError),
            Error::Invalid | Error::TooLong => Ok(false),
        },
    }
}

// The first member whose name stands in its object already. An object is known by the place after its brace.
fn repeated_member(alloc: Global, text: &str) -> Result<RepeatedMember, AllocError> {
    let mut scratch = Scratch::new(alloc);
    let mut reader = Reader::new(text, &mut scratch)?;
    let mut open = Vec::new(alloc);
    let mut seen = BTreeSet::new(alloc);
    let mut at = reader.offset();
    while let Some(token) = reader.next() {
        match token {
            Token::BeginObject => open.push(reader.offset())?,
            Token::EndObject => {
                let _ = open.pop();
            }
            Token::Key(name) => {
                let object: usize = open.last().map_or(0, |place| *place);
                if !seen.insert((object, name))? {
                    let name = String::from_str(alloc, name)?;
                    return Ok(RepeatedMember { name, at });
                }
            }
            _ => {}
        }
        at = reader.offset();
    }
    Ok(RepeatedMember {
        name: String::new(alloc),
        at,
    })
}

/// A member that stands twice in one object, at any depth; `None` where there is none, and where the bytes are not JSON in UTF-8 of at most 128 levels. The only error is that memory ran out.
pub fn first_repeated_member(
    alloc: Global,
    bytes: &[u8],
) -> Result<Option<RepeatedMember>, AllocError>
    ensures { IfOk result (λ member. IsSome member ↔ RepeatsMember bytes.now) }
{
    match simdutf8::compat::from_utf8(bytes) {
        Ok(text) => {
            if repeats(alloc, text)? {
                Ok(Some(repeated_member(alloc, text)?))
            } else {
                Ok(None)
            }
        }
        Err(_) => Ok(None),
    }
}
