// The buffers of the caller.

ghost use Rattle.std.specs.Prelude.{◌≡◌, ◌≤◌, ◌++◌, length, drop};

/// Writes items at the beginning of a buffer, and leaves the rest as it is.
pub(crate) fn put<T: Copy>(buffer: &mut [T], items: &[T])
    requires { length items.now ≤ length buffer.old }
    ensures { buffer.new ≡ items.now ++ drop (length items.now) buffer.old }
{
    let (front, _back) = buffer.split_at_mut(items.len());
    front.copy_from_slice(items);
}
