//! Nodes in the order of the bytes of their sets.
ghost use Rattle.std.specs.Prelude.{◌≡◌, ◌≢◌, ◌<◌, ◌≤◌, ◌+◌, ◌++◌, ℕ, All, IfSome, length};
ghost use Rattle.std.specs.Prelude.{slice_index};
ghost use Rattle.std.specs.Prelude.{vec_len, vec_capacity};
ghost use Rattle.ov_base.specs.declared.limits.TheConstants.{MAX_LAYER_NODES};
ghost use Rattle.ov_graph.specs.Contents.{node_of};
ghost use Rattle.ov_index.specs.Orders.{Ascends, IsBefore, IsOrder, IsSetPlace};

use crate::insertion::insert_within;
use ov_base::UserSet;
use ov_graph::covering::node_of;

/// The place of the first node whose set doesn't come before this one.
fn place<const W: usize>(sets: &[UserSet<W>], order: &[u32], set: &UserSet<W>) -> usize
    requires inside { All (λ node. node < length sets.now) order.now }
    requires order { Ascends (IsBefore sets.now) order.now }
    ensures { IsSetPlace sets.now order.now set.now result }
{
    let mut low = 0;
    let mut high = order.len();
    while low < high {
        let middle = low + (high - low) / 2;
        if sets[order[middle] as usize].cmp_bytes(set).is_lt() {
            low = middle + 1;
        } else {
            high = middle;
        }
    }
    low
}

/// The node that has the set.
pub fn find<const W: usize>(sets: &[UserSet<W>], order: &[u32], set: &UserSet<W>) -> Option<u32>
    requires { IsOrder (IsBefore sets.now) (length sets.now) order.now }
    ensures { result ≡ node_of sets.now set.now }
{
    let first = place(sets, order, set);
    if first < order.len() && sets[order[first] as usize] == *set {
        Some(order[first])
    } else {
        None
    }
}

/// The first node of both lists that has the set, by the order of the nodes of the first.
pub fn find_in_both<const W: usize>(
    sets: &[UserSet<W>],
    order: &[u32],
    before: &[UserSet<W>],
    set: &UserSet<W>,
) -> Option<u32>
    requires nodes { length sets.now + length before.now ≤ MAX_LAYER_NODES }
    requires order { IsOrder (IsBefore sets.now) (length sets.now) order.now }
    ensures node { result ≡ node_of (sets.now ++ before.now) set.now }
    ensures inside { IfSome result (λ node. node < length sets.now + length before.now) }
{
    match find(sets, order, set) {
        Some(node) => Some(node),
        None => {
            let later = node_of(&[], before, set)?;
            Some(sets.len() as u32 + later)
        }
    }
}

/// Puts the next node at its place. It takes no memory.
pub fn insert<const W: usize>(sets: &[UserSet<W>], order: &mut Vec<u32>, node: u32)
    requires there { node < length sets.now }
    requires order { IsOrder (IsBefore sets.now) node order.old.items }
    requires new { (earlier : ℕ) → earlier < node
        → slice_index sets.now earlier ≢ slice_index sets.now node }
    requires room { vec_len order.old < vec_capacity order.old }
    ensures order { IsOrder (IsBefore sets.now) (node + 1) order.new.items }
    ensures len { vec_len order.new ≡ vec_len order.old + 1 }
    ensures capacity { vec_capacity order.old ≤ vec_capacity order.new }
{
    let first = place(sets, order, &sets[node as usize]);
    insert_within(order, first, node);
}
