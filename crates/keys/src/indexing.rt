// Sets of keys in order, in which a look-up takes time logarithmic in their number.

ghost use Rattle.std.specs.Prelude.{◌≡◌, ◌||◌, ℕ, List, OnOk, OnErr};
ghost use Rattle.std.specs.Ordering.{nat_cmp};
ghost use Rattle.std.specs.Cmp.Lexicographic.{slice_cmp};
ghost use Rattle.std.specs.BTreeSet.{contains};
ghost use Rattle.keys.specs.Keys.{is_among};

use std::alloc::AllocError;
use std::collections::BTreeSet;

/// Adds keys to a set, all or none: where memory runs out, the set keeps the keys that it had.
pub(crate) fn insert_all(set: &mut BTreeSet<[u8; 33]>, keys: &[[u8; 33]]) -> Result<(), AllocError>
    ensures ok { OnOk result ((q : List ℕ)
        → contains (slice_cmp nat_cmp) set.new q ≡ (is_among q keys.now || contains
        (slice_cmp nat_cmp) set.old q)) }
    ensures err { OnErr result ((q : List ℕ) → contains (slice_cmp nat_cmp) set.new q ≡ contains
        (slice_cmp nat_cmp) set.old q) }
{
    let Some((key, others)) = keys.split_first() else {
        return Ok(());
    };
    if set.contains(key) {
        return insert_all(set, others);
    }
    set.insert(*key)?;
    let rest = insert_all(set, others);
    if rest.is_err() {
        set.remove(key);
    }
    rest
}
