//! The cover of a set by earlier sets: those of a graph, and then those of a second list. A graph
//! that finds its candidates in another way keeps those that [`keep`] keeps.
ghost use Rattle.std.specs.Prelude.{◌≡◌, ◌<◌, ◌≤◌, ◌+◌, ◌++◌, ℕ, length, slice_index};
ghost use Rattle.std.specs.Prelude.{All, IfOk, IfSome, OnOk};
ghost use Rattle.std.specs.Ordering.{nat_cmp};
ghost use Rattle.std.specs.List.Sorted.{IsNonDecreasingBy, IsPermutation, IsStableByKey};
ghost use Rattle.ov_graph.specs.Cover.{is_candidate, candidates_from, cover_of, kept};
ghost use Rattle.ov_graph.specs.Candidates.{entries, nodes_of};
ghost use Rattle.ov_graph.specs.Contents.{node_of};
ghost use Rattle.ov_base.specs.Sets.{empty};
ghost use Rattle.ov_base.specs.declared.limits.TheConstants.{MAX_LAYER_NODES, MAX_SET_WORDS};

use ov_base::{Memory, UserSet};
use ov_tokens::Numbers;
use std::alloc::{AllocError, Global};

/// A node whose set is a nonempty strict subset of the set that is covered, and how many users it
/// lacks.
#[derive(Clone, Copy)]
pub struct Candidate {
    pub node: u32,
    pub lacks: u32,
}

/// Whether a node's set is a nonempty strict subset of the set that is covered.
pub fn is_candidate<const W: usize>(earlier: &UserSet<W>, set: &UserSet<W>) -> bool
    ensures { result ≡ is_candidate set.now earlier.now }
{
    earlier.count() > 0 && earlier.within(set) && earlier != set
}

/// The set of a node, by number: those of the second list come after those of the first.
pub fn set_at<'a, const W: usize>(
    sets: &'a [UserSet<W>],
    before: &'a [UserSet<W>],
    node: usize,
) -> &'a UserSet<W>
    requires { node < length sets.now + length before.now }
    ensures { result.now ≡ slice_index (sets.now ++ before.now) node }
{
    if node < sets.len() {
        &sets[node]
    } else {
        &before[node - sets.len()]
    }
}

fn candidates<const W: usize>(
    alloc: Global,
    sets: &[UserSet<W>],
    before: &[UserSet<W>],
    set: &UserSet<W>,
) -> Result<Vec<Candidate>, Memory>
    requires { length sets.now + length before.now ≤ MAX_LAYER_NODES }
    ensures { let all = sets.now ++ before.now in
        IfOk result (λ found.
        found.items ≡ entries all set.now (candidates_from set.now 0 all)) }
{
    let size = set.count();
    let mut found = Vec::new(alloc);
    for node in 0..sets.len() + before.len() {
        let earlier = set_at(sets, before, node);
        if is_candidate(earlier, set) {
            found.push(Candidate {
                node: node as u32,
                lacks: size - earlier.count(),
            })?;
        }
    }
    Ok(found)
}

/// Puts candidates in the order in which they are gone through: larger sets first, and those of one
/// size as they were.
pub fn sort(candidates: &mut Vec<Candidate>) -> Result<(), AllocError>
    ensures same { OnOk result (IsPermutation candidates.old.items candidates.new.items) }
    ensures sorted { OnOk result (IsNonDecreasingBy (λ c. c.lacks) candidates.new.items) }
    ensures stable { OnOk result
        (IsStableByKey (λ c. c.lacks) nat_cmp candidates.old.items candidates.new.items) }
{
    candidates.sort_by_key(|candidate| candidate.lacks)?;
    Ok(())
}

/// The nodes of those candidates whose sets, each at its turn, have a user who is in no kept set.
pub fn keep<const W: usize>(
    alloc: Global,
    sets: &[UserSet<W>],
    before: &[UserSet<W>],
    candidates: &[Candidate],
) -> Result<Numbers, Memory>
    requires width { (1 ≤ W) × (W ≤ MAX_SET_WORDS) }
    requires nodes { All (λ c. c.node < length sets.now + length before.now) candidates.now }
    ensures { let all = sets.now ++ before.now in
        IfOk result (λ from. from ≡ kept all empty (nodes_of candidates.now)) }
{
    let mut covered = UserSet::empty();
    let mut from = Numbers::new(alloc);
    for candidate in candidates {
        let earlier = set_at(sets, before, candidate.node as usize);
        if !earlier.within(&covered) {
            from.push(candidate.node)?;
            covered = covered.union(earlier);
        }
    }
    Ok(from)
}

/// The starts of the edges to a set that comes after both lists of sets.
pub fn cover<const W: usize>(
    alloc: Global,
    sets: &[UserSet<W>],
    before: &[UserSet<W>],
    set: &UserSet<W>,
) -> Result<Numbers, Memory>
    requires { length sets.now + length before.now ≤ MAX_LAYER_NODES }
    ensures { IfOk result (λ from. from ≡ cover_of (sets.now ++ before.now) set.now) }
{
    if set.count() < 2 {
        return Ok(Numbers::new(alloc));
    }
    let mut found = candidates(alloc, sets, before, set)?;
    sort(&mut found)?;
    keep(alloc, sets, before, &found)
}

/// The first node of both lists that has the set.
pub fn node_of<const W: usize>(
    sets: &[UserSet<W>],
    before: &[UserSet<W>],
    set: &UserSet<W>,
) -> Option<u32>
    requires { length sets.now + length before.now ≤ MAX_LAYER_NODES }
    ensures node { result ≡ node_of (sets.now ++ before.now) set.now }
    ensures inside { IfSome result (λ node. node < length sets.now + length before.now) }
{
    for node in 0..sets.len() + before.len() {
        if set_at(sets, before, node) == set {
            return Some(node as u32);
        }
    }
    None
}
