// Laws of the listing: who can spend by a script, and when.

ghost use Rattle.paths.specs.Laws.{ListedAreSound, SatisfiedExactly, NoPathNoWitness, SpendersWait};

/// Whatever meets a listed path runs clean, with exactly that path's counted opcodes and height, at most 201 and 1,000. The path's locks are
/// those of its facts.
pub fn listed_paths_are_sound()
    ensures { ListedAreSound }
{}

/// A listed script is satisfied exactly by whoever meets one of its paths, whatever the witness and the spend. A run ends clean with given
/// counted opcodes and height exactly where the witness meets a listed path that has them.
pub fn scripts_are_satisfied_exactly()
    ensures { SatisfiedExactly }
{}

/// A script whose listing has no path cannot be satisfied: no witness runs clean, whatever the spend.
pub fn no_path_is_nobody()
    ensures { NoPathNoWitness }
{}

/// Whatever satisfies a listed script meets a listed path. The spend also meets that path's greatest absolute lock (BIP 65) and its greatest
/// relative lock in blocks (BIP 112).
pub fn spenders_wait()
    ensures { SpendersWait }
{}
