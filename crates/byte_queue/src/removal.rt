ghost use Rattle.std.specs.Prelude.{◌≡◌, ◌+◌, ◌≤◌, drop, vec_len, vec_capacity};

/// Removes so many items from the front, and moves the others there. It takes no memory, and gives none back.
pub fn remove_front<T: Drop>(items: &mut Vec<T>, count: usize)
    requires { count ≤ vec_len items.old }
    ensures items { items.new.items ≡ drop count items.old.items }
    ensures len { vec_len items.new + count ≡ vec_len items.old }
    ensures capacity { vec_capacity items.new ≡ vec_capacity items.old }
{
    let rest = items.len() - count;
    items.rotate_left(count);
    items.truncate(rest);
}
