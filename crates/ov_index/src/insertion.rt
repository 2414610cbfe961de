//! An item in the middle of a list.
ghost use Rattle.std.specs.Prelude.{◌≡◌, ◌<◌, ◌≤◌, ◌+◌, vec_len, vec_capacity};
ghost use Rattle.std.specs.List.{insert};

/// Puts a node at a place of a list that has room for it. It takes no memory.
pub fn insert_within(order: &mut Vec<u32>, place: usize, node: u32)
    requires place { place ≤ vec_len order.old }
    requires room { vec_len order.old < vec_capacity order.old }
    ensures items { order.new.items ≡ insert order.old.items place node }
    ensures len { vec_len order.new ≡ vec_len order.old + 1 }
    ensures capacity { vec_capacity order.old ≤ vec_capacity order.new }
{
    let _ = order.insert(place, node);
}
