// The rows and the bytes that a row refers to.

ghost use Rattle.std.specs.Prelude.{◌≡◌, true, false, MatchOption};
ghost use Rattle.enforce_c.specs.Ranges.{has_part, part};

/// `count` items from an index on, if they are all there.
pub(crate) fn part<T: Copy>(items: &[T], at: usize, count: usize) -> Option<&[T]>
    ensures { MatchOption result (has_part at count items.now ≡ false)
        (λ xs. (has_part at count items.now ≡ true) × (xs.now ≡ part at count items.now)) }
{
    if at > items.len() || count > items.len() - at {
        return None;
    }
    let (_before, from) = items.split_at(at);
    let (wanted, _after) = from.split_at(count);
    Some(wanted)
}
