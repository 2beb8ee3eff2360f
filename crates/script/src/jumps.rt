//! Where a run goes after an opcode.

/// Where a run goes after an opcode.
#[derive(Clone, Copy, Debug, PartialEq, Eq)]
pub enum Jump {
    /// To the next opcode.
    Next,
    /// Past the ELSE of this IF, or past its ENDIF where it has no ELSE.
    AfterElse,
    /// Past the ENDIF of this ELSE.
    AfterEndIf,
}
