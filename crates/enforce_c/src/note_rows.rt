// What C is told of a script that endangers money.

/// Anyone can spend by the path `at` once its locks have passed: it asks neither a signature of a key that the script fixes nor an item with a given hash.
pub const NOTE_ANYONE: u32 = 1;
/// Whoever knows an item with a given hash can spend by the path `at`: it asks no signature of a key that the script fixes, so who sees such a witness can spend too.
pub const NOTE_FINDER: u32 = 2;
/// No witness spends an output with the script, by consensus neither: what is paid to it is lost. `at` is 0.
pub const NOTE_NOBODY: u32 = 3;
/// A branch ends at the opcode of the index `at`, because a key there has not 33 bytes that begin with 02 or 03. By consensus others may spend by it.
pub const NOTE_STRICTER_KEY: u32 = 4;
/// A branch ends there, because a signature there is neither empty nor one that a key can give. By consensus others may spend by it.
pub const NOTE_STRICTER_SIGNATURE: u32 = 5;
/// A branch ends there, because a number there is not minimally encoded. By consensus others may spend by it.
pub const NOTE_STRICTER_NUMBER: u32 = 6;

/// A note on a script.
#[repr(C)]
#[derive(Clone, Copy)]
pub struct NoteRow {
    /// One of the kinds of notes.
    pub kind: u32,
    /// The index of the path or of the opcode that it is about.
    pub at: usize,
}

/// What the call that notes tells beside its status. Each call writes all of it: the rows that there are, whether or not they were written, and the number
/// that a refusal carries.
#[repr(C)]
#[derive(Clone, Copy)]
pub struct NotesAnswer {
    pub notes: usize,
    pub number: usize,
}
