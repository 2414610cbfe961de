//! What every graph of keys does.
ghost use Rattle.std.specs.Prelude.{◌≡◌, ◌↔◌, ◌<◌, ◌≤◌, ◌+◌, ◌++◌, [], ◌∷◌, ℕ, length, slice_index};
ghost use Rattle.std.specs.Prelude.{Err, IfOk, OnOk, IsTrue};
ghost use Rattle.ov_base.specs.Sets.{size};
ghost use Rattle.ov_base.specs.declared.limits.TheConstants.{MAX_LAYER_NODES};
ghost use Rattle.ov_graph.specs.Contents.{Contents, edges_to, joined, node_of, plan_of};
ghost use Rattle.ov_graph.specs.Contents.{FollowsCovers, HasNode, HasRoom, IsGraph};
ghost use Rattle.ov_graph.specs.Reach.{IsEdge, IsRooted, LeadsByMembership};

use crate::{Cover, GraphRefusal};
use ov_base::{Memory, UserSet};
use ov_tokens::{Edge, Layer, Tokens};
use std::alloc::Global;

/// A graph of the keys of a layer: nodes, numbered from 0, each with a set of users of its own, and
/// the edges that lead into each node.
pub trait Graph<L: Layer, const W: usize>: Drop {
    /// The sets and the edges of a graph, and for how many more of both there is room.
    ghost contents: { Self → Contents };

    /// A graph without nodes.
    fn new(alloc: Global) -> Result<Self, Memory>
        ensures sets { IfOk result (λ graph. (contents graph).sets ≡ []) }
        ensures edges { IfOk result (λ graph. (contents graph).edges ≡ []) };

    /// How many nodes the graph has.
    fn count(&self) -> u32
        ensures nodes { result ≡ length (contents self.now).sets }
        ensures few { result ≤ MAX_LAYER_NODES };

    /// The node that has this set.
    fn find(&self, set: &UserSet<W>) -> Option<u32>
        ensures { result ≡ node_of (contents self.now).sets set.now };

    /// The set of a node.
    fn set_of(&self, node: u32) -> UserSet<W>
        requires { HasNode (contents self.now) node }
        ensures { result ≡ slice_index (contents self.now).sets node };

    /// The edges into a node, in the order of its cover.
    fn in_tokens(&self, node: u32) -> &[Edge]
        requires { HasNode (contents self.now) node }
        ensures { result.now ≡ edges_to (contents self.now) node };

    /// What a set gets that comes after the sets of the nodes and then those of `before`.
    fn plan(
        &self,
        alloc: Global,
        before: &[UserSet<W>],
        set: &UserSet<W>,
    ) -> Result<Cover, GraphRefusal>
        requires { length (contents self.now).sets + length before.now ≤ MAX_LAYER_NODES }
        ensures cover { let sets = (contents self.now).sets ++ before.now in
            IfOk result (λ cover. cover ≡ plan_of sets set.now) }
        ensures full { let sets = (contents self.now).sets ++ before.now in
            (result ≡ Err GraphRefusal.NodesFull)
            ↔ ((length sets ≡ MAX_LAYER_NODES) × IsTrue (plan_of sets set.now).fresh) }
        ensures number { IfOk result (λ cover. cover.node < MAX_LAYER_NODES) }
        ensures few { IfOk result (λ cover. length cover.from ≤ size set.now) }
        ensures none { size set.now ≤ 1 → IfOk result (λ cover. cover.from ≡ []) };

    /// Makes room for this many more sets and this many more edges. No room is lost by it; where
    /// memory is refused, some may have been gained.
    fn reserve(&mut self, sets: u32, edges: u32) -> Result<(), Memory>
        ensures sets { (contents self.new).sets ≡ (contents self.old).sets }
        ensures edges { (contents self.new).edges ≡ (contents self.old).edges }
        ensures room { OnOk result (HasRoom (contents self.new) sets edges) }
        ensures kept { (sets edges : ℕ)
            → HasRoom (contents self.old) sets edges
            → HasRoom (contents self.new) sets edges };

    /// Adds a set as it was planned, with a token for each edge of its cover. It takes no memory.
    fn add(&mut self, set: &UserSet<W>, cover: Cover, tokens: Tokens)
        requires nodes { length (contents self.old).sets < MAX_LAYER_NODES }
        requires roots { IsRooted (contents self.old).sets set.now }
        requires cover { cover ≡ plan_of (contents self.old).sets set.now }
        requires fresh { IsTrue cover.fresh }
        requires tokens { length tokens ≡ length cover.from }
        requires room { HasRoom (contents self.old) 1 (length tokens) }
        ensures sets { (contents self.new).sets ≡ (contents self.old).sets ++ set.now ∷ [] }
        ensures edges { let edges = joined cover.from tokens in
            (contents self.new).edges ≡ (contents self.old).edges ++ edges ∷ [] }
        ensures room { (sets edges : ℕ)
            → HasRoom (contents self.old) (sets + 1) (edges + length tokens)
            → HasRoom (contents self.new) sets edges };

    /// Does nothing. Its contract is what holds of every graph, for code that knows the trait
    /// alone.
    fn known(&self)
        ensures graph { IsGraph (contents self.now).sets (contents self.now).edges }
        ensures few { length (contents self.now).sets ≤ MAX_LAYER_NODES };
}

/// Does nothing. Its contract is the theorem of the graph: the node of a user alone leads over the
/// edges to exactly the nodes whose sets have the user. These are the graph's own edges: those into
/// a node start, in order, at the nodes of its cover. Edges go from lower numbers to higher; at
/// most as many come into a node as its set has users, and none into the node of the empty set or
/// of a user alone.
pub fn leads_by_membership<L: Layer, G: Graph<L, W>, const W: usize>(graph: &G)
    ensures reach { LeadsByMembership (G.contents graph.now).sets }
    ensures edges { FollowsCovers (G.contents graph.now) }
    ensures upward { (from to : ℕ) → IsEdge (G.contents graph.now).sets from to → from < to }
    ensures few { let graph = G.contents graph.now in
        (node : ℕ) → HasNode graph node
        → length (edges_to graph node) ≤ size (slice_index graph.sets node) }
    ensures none { let graph = G.contents graph.now in
        (node : ℕ) → HasNode graph node
        → size (slice_index graph.sets node) ≤ 1 → edges_to graph node ≡ [] }
{
    graph.known();
}
