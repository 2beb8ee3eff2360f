// The verdict on an input.

ghost use Rattle.std.specs.Prelude.{◌≡◌};
ghost use Rattle.judge.specs.Refusals.{fault_number};

use chain::ProgramFault;
use lists::{ByteString, Stack};
use machine::Run;
use script::{Cause, ParseError, Script};

/// Why no script runs for an input (BIP 141).
#[derive(Drop)]
pub enum Fault {
    /// The program and the witness give no script.
    Program(ProgramFault),
    /// The last item of the witness is not a script.
    BadScript(ParseError),
}

impl Fault {
    /// The number of the refusal.
    pub fn number(&self) -> u8
        ensures { result ≡ fault_number self.now }
    {
        match self {
            Fault::Program(fault) => match fault {
                ProgramFault::OtherProgram => 1,
                ProgramFault::NotTwoItems => 2,
                ProgramFault::NoScript => 3,
                ProgramFault::OtherScript => 4,
            },
            Fault::BadScript(_) => 5,
        }
    }
}

/// A run that stops.
#[derive(Drop)]
pub struct Stopped {
    /// Why.
    pub cause: Cause,
    /// The opcode at which it stops, from 0; the number of opcodes for a stop at the end.
    pub index: usize,
    /// What ran.
    pub script: Script,
    /// The entries before that opcode.
    pub stack: Option<Stack<ByteString>>,
    /// What a signature of this input is over (BIP 143).
    pub digest: [u8; 32],
}

/// A run that is clean.
#[derive(Drop)]
pub struct Clean {
    /// How it went.
    pub run: Run,
    /// The number of the first listed path that the witness meets; `None` if the script is not listed.
    pub path: Option<usize>,
    /// What a signature of this input is over (BIP 143).
    pub digest: [u8; 32],
}

/// The verdict on an input.
#[derive(Drop)]
pub enum Verdict {
    /// No script runs.
    Refused(Fault),
    /// The script stops.
    Stopped(Stopped),
    /// The script runs clean.
    Clean(Clean),
}
