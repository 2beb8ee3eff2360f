// Why a text is refused.

ghost use Rattle.std.specs.Prelude.{◌≡◌};
ghost use Rattle.trace.specs.Refusals.{refusal_number};

use streams::InputError;
use tx::DecodeError;

/// Why a text is not a transaction with the outputs that it spends. Checked in the order of the numbers; the first line at fault is named.
#[derive(Drop)]
pub enum SpentError {
    /// Memory ran out, the input can't be read or is too long, it is not text, or its first line is not hexadecimal.
    Input(InputError),
    /// The first line is not a transaction.
    Decode(DecodeError),
    /// The number of lines after the first is not the number of inputs.
    BadCount,
    /// A line is not a value in satoshis and a program in hexadecimal, or above the limits of an output: its number, from 1.
    BadLine(usize),
}

impl SpentError {
    /// The number of the refusal; 0 is out of memory.
    pub fn number(&self) -> u8
        ensures { result ≡ refusal_number self.now }
    {
        match self {
            SpentError::Input(error) => error.number(),
            SpentError::Decode(_) => 4,
            SpentError::BadCount => 5,
            SpentError::BadLine(_) => 6,
        }
    }
}
