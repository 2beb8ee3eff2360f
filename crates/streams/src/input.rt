// Reads the input.

ghost use Rattle.std.specs.Prelude.{◌≤◌, IfOk, vec_len};

use std::alloc::Global;
use std::io::{ErrorKind, Read};

/// The greatest number of bytes of an input.
pub const MAX_INPUT: usize = 4_194_304;

/// Why an input is refused before its content is looked at.
#[derive(Clone, Copy)]
pub enum InputError {
    /// Memory ran out.
    NoMemory,
    /// The input can't be read.
    ReadFailed,
    /// The input has more than 4,194,304 bytes.
    TooLong,
    /// The input is not text, or a text is not hexadecimal.
    BadHex,
}

impl InputError {
    ghost use Rattle.std.specs.Prelude.{◌≡◌};
    ghost use Rattle.streams.specs.InputRefusals.{input_number, input_text};

    /// The number of the refusal; 0 is out of memory.
    pub fn number(&self) -> u8
        ensures { result ≡ input_number self.now }
    {
        match self {
            InputError::NoMemory => 0,
            InputError::ReadFailed => 1,
            InputError::TooLong => 2,
            InputError::BadHex => 3,
        }
    }

    /// The name of the refusal, as it is printed.
    pub fn text(&self) -> &'static str
        ensures { result.now ≡ input_text self.now }
    {
        match self {
            InputError::NoMemory => "NoMemory",
            InputError::ReadFailed => "ReadFailed",
            InputError::TooLong => "TooLong",
            InputError::BadHex => "BadHex",
        }
    }
}

/// Reads the whole input, but at most one byte above the limit.
pub fn read_all(alloc: Global, input: &mut dyn Read) -> Result<Vec<u8>, InputError>
    ensures { IfOk result (λ bytes. vec_len bytes ≤ MAX_INPUT) }
{
    let mut bytes = Vec::new(alloc);
    if let Err(error) = input.take(MAX_INPUT as u64 + 1).read_to_end(&mut bytes) {
        return Err(match error.kind() {
            ErrorKind::OutOfMemory => InputError::NoMemory,
            _ => InputError::ReadFailed,
        });
    }
    if bytes.len() > MAX_INPUT {
        return Err(InputError::TooLong);
    }
    Ok(bytes)
}
