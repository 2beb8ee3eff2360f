// What C gives to have slots prepared, and what it is told of them.

/// A key that the caller can sign with.
#[repr(C)]
#[derive(Clone, Copy)]
pub struct KeyRow {
    /// A compressed public key.
    pub bytes: [u8; 33],
}

/// What the call that prepares slots tells beside its status. Each call writes all of it: the rows and bytes that there are, whether or not they were
/// written, and the number that a refusal carries.
#[repr(C)]
#[derive(Clone, Copy)]
pub struct SlotsAnswer {
    pub slots: usize,
    pub bytes: usize,
    pub number: usize,
}
