//! Filling an array item by item.

ghost use Rattle.std.specs.Prelude.{◌≡◌, ◌<◌, ℕ, List};
ghost use Rattle.dimacs_fill.specs.{Filling.{filled}, inside.Filling.{AreItems}};

/// Copies the items that `item` gives for the numbers below `count`, in order, as many as fit. The rest of the buffer
/// stays as it was.
#[inline(always)]
pub(crate) fn fill<T: Copy, F: Fn(usize) -> T>(buffer: &mut [T], count: usize, item: F)
    requires { (i : ℕ) → i < count → F.pre item i }
    ensures { (items : List T) → AreItems (F.post item) count items → buffer.new ≡ filled items buffer.old }
{
    for i in 0..count.min(buffer.len()) {
        buffer[i] = item(i);
    }
}
