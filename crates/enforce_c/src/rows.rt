// What C sees of a script's paths.

ghost use Rattle.std.specs.Prelude.{◌≡◌};
ghost use Rattle.enforce_c.specs.Rows.{blank_row, slot_row};

/// A way through a script. Its facts are the rows from `first_fact` on, `facts` of them.
#[repr(C)]
#[derive(Clone, Copy)]
pub struct PathRow {
    /// The number of witness items, the script not counted.
    pub arity: usize,
    /// The counted opcodes of a run, keys of CHECKMULTISIGs included; at most 201.
    pub counted: usize,
    /// The greatest number of elements of a run, at most 1,000.
    pub height: usize,
    /// The index of its first fact's row.
    pub first_fact: usize,
    /// How many rows its facts have.
    pub facts: usize,
    /// The greatest absolute lock that a run checks (BIP 65), if there is one: a height below 500,000,000, else a time in seconds, which no claim here has.
    pub lock: u64,
    /// The greatest relative lock in blocks that a run checks (BIP 68, 112), if there is one. One in units of 512 seconds is a fact of the path, and no claim here has it.
    pub age: u32,
    pub has_lock: bool,
    pub has_age: bool,
}

/// What a path asks of the witness or the spend. Slots count from 0 at the top of the stack.
#[repr(C)]
#[derive(Clone, Copy)]
pub struct FactRow {
    /// One of the kinds of facts.
    pub kind: u32,
    /// Whether the fact is to hold, or not to hold.
    pub holds: bool,
    /// Whether the key is a slot of the witness; else the script has it.
    pub key_is_slot: bool,
    /// The slot that the fact is about.
    pub slot: usize,
    /// The slot that has the key.
    pub key_slot: usize,
    /// A number of bytes, or the number of a lock.
    pub number: u64,
    /// Where its constant bytes begin: a hash, a key of the script, or what the slot is.
    pub bytes_at: usize,
    /// How many constant bytes it has.
    pub bytes_length: usize,
}

/// What a call tells beside its status. Each call writes all of it: the rows and bytes that there are, whether or not they were
/// written, and the number that a refusal carries, a byte's position or an opcode's index.
#[repr(C)]
#[derive(Clone, Copy)]
pub struct Answer {
    pub paths: usize,
    pub facts: usize,
    pub bytes: usize,
    pub number: usize,
}

/// HASH160 of the slot is these 20 bytes.
pub const FACT_HASH: u32 = 1;
/// The slot has this number of bytes.
pub const FACT_SIZE: u32 = 2;
/// The slot counts as true.
pub const FACT_TRUTH: u32 = 3;
/// The slot is these bytes.
pub const FACT_IS: u32 = 4;
/// The slot has the form of a key.
pub const FACT_KEY: u32 = 5;
/// The slot is empty or has the form of a signature.
pub const FACT_FORM: u32 = 6;
/// The slot is the key's signature over the spend.
pub const FACT_SIGNED: u32 = 7;
/// The slots and keys in the rows that follow it: the slots are signatures of an increasing choice of the keys, both deepest first.
pub const FACT_CHOICE: u32 = 8;
/// A slot of the choice before it.
pub const FACT_CHOICE_SLOT: u32 = 9;
/// A key of the choice before it.
pub const FACT_CHOICE_KEY: u32 = 10;
/// CHECKLOCKTIMEVERIFY of this number passes (BIP 65).
pub const FACT_LOCK: u32 = 11;
/// CHECKSEQUENCEVERIFY of this number passes (BIP 112). Of it only the bits of 0x40ffff are kept.
pub const FACT_AGE: u32 = 12;

impl FactRow {
    /// A row of a kind, and nothing more.
    pub(crate) fn blank(kind: u32, holds: bool) -> FactRow
        ensures { result ≡ blank_row kind holds }
    {
        FactRow {
            kind,
            holds,
            key_is_slot: false,
            slot: 0,
            key_slot: 0,
            number: 0,
            bytes_at: 0,
            bytes_length: 0,
        }
    }

    /// A row about a slot.
    pub(crate) fn at_slot(kind: u32, holds: bool, slot: usize) -> FactRow
        ensures { result ≡ slot_row kind holds slot }
    {
        let mut row = FactRow::blank(kind, holds);
        row.slot = slot;
        row
    }

    /// The row with a number.
    pub(crate) fn with_number(self, number: u64) -> FactRow
        ensures { result ≡ record self { number = number } }
    {
        let mut row = self;
        row.number = number;
        row
    }
}
