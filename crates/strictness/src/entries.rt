// The entries on the stack of a branch, as
// far as they decide where the branch goes.

ghost use Rattle.std.specs.Prelude.{◌≡◌, ◌≤◌, OnOk, ◌∷◌, length};
ghost use Rattle.script.specs.Number.{number_of};
ghost use Rattle.strictness.specs.Words.{bytes_of, constant, shown as shown_of, first_bytes, word_of, words, known, known_flag, truth_of, size_of, hash_of, equal_of, answer_if as answered_if, is_length, top_of, below};

use digest::hash160;
use lists::Stack;
use script::limits::MAX_SCRIPT_ELEMENT_SIZE;
use script::num::{Limit, read};
use script::truths::is_true;
use std::alloc::AllocError;

/// The most bytes that a script pushes at once.
pub const MAX_PUSH: usize = 75;

/// Bytes that a script pushes, at most 75.
#[derive(Clone, Copy)]
pub struct Bytes {
    pub bytes: [u8; MAX_PUSH],
    pub len: usize,
}

impl Bytes {
    /// The first 75 bytes of an item.
    pub fn new(item: &[u8]) -> Self
        ensures { bytes_of result ≡ first_bytes item.now }
    {
        let mut bytes = [0; MAX_PUSH];
        let len = item.len().min(MAX_PUSH);
        bytes[..len].copy_from_slice(&item[..len]);
        Bytes { bytes, len }
    }

    /// The bytes.
    pub fn as_slice(&self) -> &[u8]
        ensures value { result.now ≡ bytes_of self.now }
        ensures short { length result.now ≤ MAX_PUSH }
    {
        &self.bytes[..self.len.min(MAX_PUSH)]
    }
}

/// An entry on the stack of a branch.
#[derive(Clone, Copy)]
pub enum Entry {
    /// An item of the witness.
    Item,
    /// Bytes that the script determines.
    Known(Bytes),
    /// The hash of an item.
    Hash,
    /// The length of an item.
    Size,
    /// The result of a comparison or of a check that the witness decides.
    Answer,
}

impl Entry {
    /// Bytes that the script determines.
    pub fn known(item: &[u8]) -> Self
        ensures { word_of result ≡ known (first_bytes item.now) }
    {
        Entry::Known(Bytes::new(item))
    }

    /// The result of a comparison of known bytes.
    pub fn flag(holds: bool) -> Self
        ensures { word_of result ≡ known_flag holds }
    {
        if holds {
            Entry::known(&[1])
        } else {
            Entry::known(&[])
        }
    }

    /// The bytes that the script determines; none if it does not.
    pub fn constant(&self) -> Bytes
        ensures { bytes_of result ≡ constant (word_of self.now) }
    {
        match self {
            Entry::Known(bytes) => *bytes,
            _ => Bytes::new(&[]),
        }
    }

    /// Whether the entry counts as true; `None` if the witness decides.
    pub fn truth(&self) -> Option<bool>
        ensures { result ≡ truth_of (word_of self.now) }
    {
        match self {
            Entry::Known(bytes) => Some(is_true(bytes.as_slice())),
            _ => None,
        }
    }

    /// The entry that SIZE pushes above it.
    pub fn size(&self) -> Self
        ensures { word_of result ≡ size_of (word_of self.now) }
    {
        match self {
            Entry::Item => Entry::Size,
            Entry::Hash => Entry::known(&[20]),
            Entry::Known(bytes) => match bytes.as_slice().len() {
                0 => Entry::known(&[]),
                len => Entry::known(&[len as u8]),
            },
            _ => Entry::Answer,
        }
    }

    /// The entry that HASH160 replaces it with.
    pub fn hash(&self) -> Self
        ensures { word_of result ≡ hash_of (word_of self.now) }
    {
        match self {
            Entry::Item => Entry::Hash,
            Entry::Known(bytes) => Entry::known(&hash160(bytes.as_slice())),
            _ => Entry::Answer,
        }
    }

    /// The entry that EQUAL leaves of two.
    pub fn equal(&self, other: &Entry) -> Self
        ensures { word_of result ≡ equal_of (word_of self.now) (word_of other.now) }
    {
        match self {
            Entry::Known(bytes) => equal_known(bytes, other),
            Entry::Hash | Entry::Size => match other {
                Entry::Known(bytes) => equal_known(bytes, self),
                _ => Entry::Answer,
            },
            _ => Entry::Answer,
        }
    }
}

// The entry that EQUAL leaves of known bytes and another entry.
fn equal_known(bytes: &Bytes, other: &Entry) -> Entry
    ensures { word_of result ≡ equal_of (known (bytes_of bytes.now)) (word_of other.now) }
{
    match other {
        Entry::Known(others) => Entry::flag(bytes.as_slice() == others.as_slice()),
        Entry::Hash => answer_if(bytes.as_slice().len() == 20),
        Entry::Size => answer_if(is_size(bytes.as_slice())),
        _ => Entry::Answer,
    }
}

// A result that the witness decides, or false if it can't hold.
fn answer_if(may_hold: bool) -> Entry
    ensures { word_of result ≡ answered_if may_hold }
{
    if may_hold {
        Entry::Answer
    } else {
        Entry::flag(false)
    }
}

// Whether bytes are the minimal encoding of a length that an item may have.
fn is_size(bytes: &[u8]) -> bool
    ensures { result ≡ is_length (number_of 4 bytes.now) }
{
    match read(bytes, Limit::Count) {
        Some(number) => { !number.negative && number.magnitude <= MAX_SCRIPT_ELEMENT_SIZE as u64 }
        None => false,
    }
}

/// The bytes of the lower of two entries, or of the upper one where the lower one has none.
pub fn shown(top: &Entry, second: &Entry) -> Bytes
    ensures { bytes_of result ≡ shown_of (word_of top.now) (word_of second.now) }
{
    let bytes = second.constant();
    if bytes.as_slice().is_empty() {
        top.constant()
    } else {
        bytes
    }
}

/// Pops the top of a stack. Below its entries are the items of the witness.
pub fn pop(stack: &mut Stack<Entry>) -> Entry
    ensures top { word_of result ≡ top_of (words stack.old) }
    ensures rest { words stack.new ≡ below (words stack.old) }
{
    match stack.pop() {
        Some(entry) => entry,
        None => Entry::Item,
    }
}

/// Pushes an entry. The only error is that memory ran out.
pub fn push(stack: &mut Stack<Entry>, entry: Entry) -> Result<(), AllocError>
    ensures { OnOk result (words stack.new ≡ word_of entry ∷ words stack.old) }
{
    stack.push(entry)
}
