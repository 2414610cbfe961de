//! Nodes in the order in which the candidates of a cover are gone through: by falling size of their
//! sets, and by rising number among sets of one size.
ghost use Rattle.std.specs.Prelude.{◌≡◌, ◌<◌, ◌≤◌, ◌+◌, ◌++◌, All, IfOk, length};
ghost use Rattle.std.specs.Prelude.{vec_len, vec_capacity};
ghost use Rattle.ov_base.specs.Sets.{size};
ghost use Rattle.ov_base.specs.declared.limits.TheConstants.{MAX_LAYER_NODES, MAX_SET_WORDS};
ghost use Rattle.ov_graph.specs.Cover.{cover_of};
ghost use Rattle.ov_index.specs.Orders.{Ascends, IsLarger, IsOrder, IsOrderBelow, IsSizePlace};

use crate::insertion::insert_within;
use ov_base::{Memory, UserSet};
use ov_graph::covering::set_at;
use ov_tokens::Numbers;
use std::alloc::Global;

/// The place of the first node whose set has fewer users.
fn place<const W: usize>(
    sets: &[UserSet<W>],
    before: &[UserSet<W>],
    order: &[u32],
    users: u32,
) -> usize
    requires inside { All (λ node. node < length sets.now + length before.now) order.now }
    requires order { Ascends (IsLarger (sets.now ++ before.now)) order.now }
    ensures { IsSizePlace (sets.now ++ before.now) order.now users result }
{
    let mut low = 0;
    let mut high = order.len();
    while low < high {
        let middle = low + (high - low) / 2;
        if set_at(sets, before, order[middle] as usize).count() < users {
            high = middle;
        } else {
            low = middle + 1;
        }
    }
    low
}

/// Puts the next node at its place. It takes no memory.
pub fn insert<const W: usize>(
    sets: &[UserSet<W>],
    before: &[UserSet<W>],
    order: &mut Vec<u32>,
    node: u32,
)
    requires there { node < length sets.now + length before.now }
    requires order { IsOrder (IsLarger (sets.now ++ before.now)) node order.old.items }
    requires room { vec_len order.old < vec_capacity order.old }
    ensures order { IsOrder (IsLarger (sets.now ++ before.now)) (node + 1) order.new.items }
    ensures len { vec_len order.new ≡ vec_len order.old + 1 }
    ensures capacity { vec_capacity order.old ≤ vec_capacity order.new }
{
    let users = set_at(sets, before, node as usize).count();
    let first = place(sets, before, order, users);
    insert_within(order, first, node);
}

/// The order of the nodes of both lists, from that of the first.
fn order_of_both<const W: usize>(
    alloc: Global,
    sets: &[UserSet<W>],
    before: &[UserSet<W>],
    order: &[u32],
) -> Result<Vec<u32>, Memory>
    requires nodes { length sets.now + length before.now ≤ MAX_LAYER_NODES }
    requires order { IsOrder (IsLarger sets.now) (length sets.now) order.now }
    ensures { let all = sets.now ++ before.now in
        IfOk result (λ both. IsOrder (IsLarger all) (length all) both.items) }
{
    let mut both = order.to_vec(alloc)?;
    both.reserve(before.len())?;
    for n in 0..before.len() {
        insert(sets, before, &mut both, (sets.len() + n) as u32);
    }
    Ok(both)
}

/// The nodes of these, which all have fewer users than the set, that make its cover.
fn keep<const W: usize>(
    alloc: Global,
    sets: &[UserSet<W>],
    before: &[UserSet<W>],
    order: &[u32],
    set: &UserSet<W>,
) -> Result<Numbers, Memory>
    requires width { (1 ≤ W) × (W ≤ MAX_SET_WORDS) }
    requires order { IsOrderBelow (sets.now ++ before.now) set.now order.now }
    ensures { IfOk result (λ from. from ≡ cover_of (sets.now ++ before.now) set.now) }
{
    let mut covered = UserSet::empty();
    let mut from = Numbers::new(alloc);
    for node in order {
        let earlier = set_at(sets, before, *node as usize);
        if earlier.within(set) && !earlier.within(&covered) {
            from.push(*node)?;
            covered = covered.union(earlier);
            if covered == *set {
                return Ok(from);
            }
        }
    }
    Ok(from)
}

fn cover_by<const W: usize>(
    alloc: Global,
    sets: &[UserSet<W>],
    before: &[UserSet<W>],
    order: &[u32],
    set: &UserSet<W>,
) -> Result<Numbers, Memory>
    requires { let all = sets.now ++ before.now in
        IsOrder (IsLarger all) (length all) order.now }
    ensures { IfOk result (λ from. from ≡ cover_of (sets.now ++ before.now) set.now) }
{
    let (_, smaller) = order.split_at(place(sets, before, order, set.count()));
    keep(alloc, sets, before, smaller, set)
}

/// The starts of the edges to a set that comes after both lists of sets, by the order of the nodes
/// of the first.
pub fn cover<const W: usize>(
    alloc: Global,
    sets: &[UserSet<W>],
    before: &[UserSet<W>],
    order: &[u32],
    set: &UserSet<W>,
) -> Result<Numbers, Memory>
    requires nodes { length sets.now + length before.now ≤ MAX_LAYER_NODES }
    requires order { IsOrder (IsLarger sets.now) (length sets.now) order.now }
    ensures { IfOk result (λ from. from ≡ cover_of (sets.now ++ before.now) set.now) }
{
    if before.is_empty() {
        return cover_by(alloc, sets, before, order, set);
    }
    let both = order_of_both(alloc, sets, before, order)?;
    cover_by(alloc, sets, before, &both, set)
}
