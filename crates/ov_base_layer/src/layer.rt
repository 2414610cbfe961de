//! The base layer over any graph.
ghost use Rattle.std.specs.Prelude.{◌≡◌, ◌↔◌, ◌<◌, ◌≤◌, ◌*◌, ◌+◌, ◌++◌, ◌∷◌, [], ℕ, not, length};
ghost use Rattle.std.specs.Prelude.{Err, IfOk, OnOk, IsTrue};
ghost use Rattle.ov_base.specs.Sets.{Has, has, size};
ghost use Rattle.ov_base.specs.declared.limits.TheConstants.{MAX_LAYER_NODES, MAX_SET_WORDS};
ghost use Rattle.ov_graph.specs.Contents.{joined, plan_of, HasNode, HasRoom, IsGraph};
ghost use Rattle.ov_graph.specs.Reach.{IsRooted};
ghost use Rattle.ov_base_layer.specs.BaseContents.{holders_of, HasAccessRoom};
ghost use Rattle.ov_base_layer.specs.Holders.{accesses_of, AreFirst, IsHolder};

use crate::Grant;
use crate::access::with_accesses;
use ov_base::{Memory, UserSet};
use ov_graph::{Cover, Graph, GraphRefusal};
use ov_tokens::{Base, Tokens};
use std::alloc::Global;
use std::marker::Model;

/// The base layer: a graph and the access tokens, in the order in which they were published.
#[derive(Drop)]
pub struct BaseLayer<G: Graph<Base, W>, const W: usize> {
    graph: G,
    grants: Vec<Grant>,
}

impl<G: Graph<Base, W>, const W: usize> Model for BaseLayer<G, W> {
    ghost use Rattle.std.specs.Prelude.{◌-◌, ◌*◌, ◌≤◌, vec_len, vec_capacity};
    ghost use Rattle.ov_base.specs.declared.limits.TheConstants.{MAX_SET_WORDS};
    ghost use Rattle.ov_base_layer.specs.BaseContents.{BaseContents};
    ghost use Rattle.ov_base_layer.specs.Holders.{accesses_of, AreFirst};

    ghost Value = { BaseContents };

    ghost view = { λ b. record {
      graph = G.contents b.graph;
      grants = b.grants.items;
      spare_grants = vec_capacity b.grants - vec_len b.grants;
    } };

    ghost invariant = { λ b. ((1 ≤ W) × (W ≤ MAX_SET_WORDS))
        × AreFirst (64 * W) (G.contents b.graph).sets (accesses_of b.grants.items) };
}

impl<G: Graph<Base, W>, const W: usize> BaseLayer<G, W> {
    /// A layer without nodes and without access tokens.
    pub fn new(alloc: Global) -> Result<Self, Memory>
        requires { (1 ≤ W) × (W ≤ MAX_SET_WORDS) }
        ensures sets { IfOk result (λ layer. layer.graph.sets ≡ []) }
        ensures edges { IfOk result (λ layer. layer.graph.edges ≡ []) }
        ensures grants { IfOk result (λ layer. layer.grants ≡ []) }
    {
        Ok(BaseLayer {
            graph: G::new(alloc)?,
            grants: Vec::new(alloc),
        })
    }

    /// The graph of a base layer.
    pub fn graph(&self) -> &G
        ensures { G.contents result.now ≡ self.now.graph }
    {
        &self.graph
    }

    /// The access tokens, in the order in which they were published.
    pub fn accesses(&self) -> &[Grant]
        ensures { result.now ≡ self.now.grants }
    {
        &self.grants
    }

    /// Makes room for this many more sets and this many more edges. No room is lost by it; where
    /// memory is refused, some may have been gained.
    pub fn reserve(&mut self, sets: u32, edges: u32) -> Result<(), Memory>
        ensures sets { self.new.graph.sets ≡ self.old.graph.sets }
        ensures edges { self.new.graph.edges ≡ self.old.graph.edges }
        ensures grants { self.new.grants ≡ self.old.grants }
        ensures room { OnOk result (HasRoom self.new.graph sets edges) }
        ensures kept { (sets edges : ℕ)
            → HasRoom self.old.graph sets edges → HasRoom self.new.graph sets edges }
        ensures kept_access { self.new.spare_grants ≡ self.old.spare_grants }
    {
        self.graph.reserve(sets, edges)
    }

    /// Adds a set as it was planned, with a token for each edge of its cover. It takes no memory.
    pub fn add(&mut self, set: &UserSet<W>, cover: Cover, tokens: Tokens)
        requires nodes { length self.old.graph.sets < MAX_LAYER_NODES }
        requires roots { IsRooted self.old.graph.sets set.now }
        requires cover { cover ≡ plan_of self.old.graph.sets set.now }
        requires fresh { IsTrue cover.fresh }
        requires tokens { length tokens ≡ length cover.from }
        requires room { HasRoom self.old.graph 1 (length tokens) }
        ensures sets { self.new.graph.sets ≡ self.old.graph.sets ++ set.now ∷ [] }
        ensures edges { let edges = joined cover.from tokens in
            self.new.graph.edges ≡ self.old.graph.edges ++ edges ∷ [] }
        ensures grants { self.new.grants ≡ self.old.grants }
        ensures room { (sets edges : ℕ)
            → HasRoom self.old.graph (sets + 1) (edges + length tokens)
            → HasRoom self.new.graph sets edges }
        ensures room_access { self.new.spare_grants ≡ self.old.spare_grants }
    {
        self.graph.add(set, cover, tokens);
    }

    /// The holders of a node: its set's users, and all to whom an access token to the node was
    /// published. It takes no memory, and looks once at each access token.
    pub fn holders(&self, node: u32) -> UserSet<W>
        requires { HasNode self.now.graph node }
        ensures holders { result ≡ holders_of self.now node }
        ensures members { (user : ℕ) → Has result user
            ↔ IsHolder self.now.graph.sets (accesses_of self.now.grants) node user }
    {
        with_accesses(self.graph.set_of(node), &self.grants, node)
    }

    /// The node that a file for this list of users has, new or not: the plan of its graph.
    pub fn plan_create(&self, alloc: Global, list: &UserSet<W>) -> Result<Cover, GraphRefusal>
        ensures cover { IfOk result (λ cover. cover ≡ plan_of self.now.graph.sets list.now) }
        ensures full { (result ≡ Err GraphRefusal.NodesFull)
            ↔ ((length self.now.graph.sets ≡ MAX_LAYER_NODES)
            × IsTrue (plan_of self.now.graph.sets list.now).fresh) }
        ensures number { IfOk result (λ cover. cover.node < MAX_LAYER_NODES) }
        ensures few { IfOk result (λ cover. length cover.from ≤ size list.now) }
        ensures none { size list.now ≤ 1 → IfOk result (λ cover. cover.from ≡ []) }
    {
        self.graph.known();
        self.graph.plan(alloc, &[], list)
    }

    /// Whether a grant wants an access token: true where the user doesn't hold the node, and only
    /// there. It takes no memory.
    pub fn plan_grant(&self, user: u32, node: u32) -> bool
        requires { HasNode self.now.graph node }
        ensures { result ≡ not (has (holders_of self.now node) user) }
    {
        self.known();
        !self.holders(node).contains(user)
    }

    /// Makes room for one more access token.
    pub fn reserve_access(&mut self) -> Result<(), Memory>
        ensures graph { self.new.graph ≡ self.old.graph }
        ensures grants { self.new.grants ≡ self.old.grants }
        ensures room { OnOk result (HasAccessRoom self.new 1) }
        ensures kept { self.old.spare_grants ≤ self.new.spare_grants }
    {
        self.grants.reserve(1)?;
        Ok(())
    }

    /// Adds an access token. It takes no memory.
    pub fn add_access(&mut self, grant: Grant)
        requires node { HasNode self.old.graph grant.node }
        requires user { grant.user < 64 * W }
        requires holder { ¬ Has (holders_of self.old grant.node) grant.user }
        requires room { HasAccessRoom self.old 1 }
        ensures graph { self.new.graph ≡ self.old.graph }
        ensures grants { self.new.grants ≡ self.old.grants ++ grant ∷ [] }
        ensures room { self.old.spare_grants ≤ self.new.spare_grants + 1 }
    {
        let _ = self.grants.push(grant);
    }

    /// Does nothing. Its contract is what holds of every base layer, for generic code: what holds
    /// of its graph, and that each access token is to a node that is there and was published to a
    /// user below `64 * W` who wasn't a holder by the tokens before it.
    pub fn known(&self)
        ensures width { (1 ≤ W) × (W ≤ MAX_SET_WORDS) }
        ensures graph { IsGraph self.now.graph.sets self.now.graph.edges }
        ensures few { length self.now.graph.sets ≤ MAX_LAYER_NODES }
        ensures grants { AreFirst (64 * W) self.now.graph.sets (accesses_of self.now.grants) }
    {
        self.graph.known();
    }
}
