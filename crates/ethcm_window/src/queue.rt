ghost use Rattle.std.specs.Prelude.{◌≡◌, ◌≤◌, drop, length};

use std::collections::VecDeque;

/// Frees the first elements.
pub(crate) fn drop_first<T: Drop>(queue: &mut VecDeque<T>, count: usize)
    requires { count ≤ length queue.old.items }
    ensures { queue.new.items ≡ drop count queue.old.items }
{
    for _ in 0..count {
        let _ = queue.pop_front();
    }
}
