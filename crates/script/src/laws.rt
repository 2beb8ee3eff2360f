// Laws of the definitions: the functions that compute agree with the relations in the standard's terms.

ghost use Rattle.script.specs.Clean.{JumpIsExact, CleanIsExact, StopIsExact, AssignedIsExact};

/// The computed end of a run is exact. An opcode jumps over as many opcodes as the nesting in the list says. A run is clean, with these
/// numbers, exactly where a chain of steps leads to a clean end. Any other run stops exactly at the least position that has a fault, for
/// the first of that position's causes. Where no position has a fault, it stops at the end of the list, for the first cause that applies
/// there.
pub fn runs_are_exact()
    ensures jump { JumpIsExact }
    ensures clean { CleanIsExact }
    ensures stopped { StopIsExact }
{}

/// Whether the signatures are the tokens of an increasing choice of keys is computed exactly.
pub fn choices_are_exact()
    ensures { AssignedIsExact }
{}
