//! Surface nodes that are planned.
ghost use Rattle.std.specs.Prelude.{◌≡◌, ◌++◌, ◌∷◌, [], IfErr, IfOk, IfSome, OnOk};
ghost use Rattle.ov_graph.specs.Reach.{IsRooted};
ghost use Rattle.ov_state.specs.Contents.{nodes_of};
ghost use Rattle.ov_state.specs.Relistings.{nodes_planned, with_want, ArePlanned, IsFull};
ghost use Rattle.ov_state.specs.Relistings.{IsSurfaceFor};

use crate::change::NewNode;
use ov_base::{Memory, UserSet};
use ov_base_layer::seal_edges;
use ov_graph::{Cover, Graph, GraphRefusal};
use ov_tokens::{Master, Surface, Tokens};
use std::alloc::Global;

/// The surface nodes that are planned, in order, and their sets again as a list.
#[derive(Drop)]
pub struct NewNodes<const W: usize> {
    pub nodes: Vec<NewNode<W>>,
    pub sets: Vec<UserSet<W>>,
}

impl<const W: usize> NewNodes<W> {
    /// No nodes. It takes no memory.
    pub fn new(alloc: Global) -> Self
        ensures nodes { result.nodes.items ≡ [] }
        ensures sets { result.sets.items ≡ [] }
    {
        NewNodes {
            nodes: Vec::new(alloc),
            sets: Vec::new(alloc),
        }
    }

    /// Appends a node.
    fn push(&mut self, set: &UserSet<W>, cover: Cover, tokens: Tokens) -> Result<(), Memory>
        ensures nodes { OnOk result (self.new.nodes.items ≡ self.old.nodes.items
            ++ record { set = set.now; cover = cover; tokens = tokens } ∷ []) }
        ensures sets { OnOk result (self.new.sets.items ≡ self.old.sets.items ++ set.now ∷ []) }
    {
        self.sets.push(set.copy())?;
        self.nodes.push(NewNode {
            set: set.copy(),
            cover,
            tokens,
        })?;
        Ok(())
    }

    /// The node of a set, which is planned where neither the graph nor what is planned has it.
    fn node_for<S: Graph<Surface, W>>(
        &mut self,
        alloc: Global,
        graph: &S,
        master: &Master,
        set: &UserSet<W>,
    ) -> Result<u32, GraphRefusal>
        requires planned { ArePlanned (S.contents graph.now).sets self.old }
        requires rooted { IsRooted (S.contents graph.now).sets set.now }
        ensures ok { IfOk result (λ node. IsSurfaceFor master.now.bytes
            (nodes_of (S.contents graph.now)) (Some set.now) self.old self.new (Some node)) }
        ensures err { IfErr result (IsFull (with_want master.now.bytes
            (nodes_planned (nodes_of (S.contents graph.now)) self.old) (Some set.now)).sets) }
    {
        let cover = graph.plan(alloc, &self.sets, set)?;
        let node = cover.node;
        if cover.fresh {
            let tokens = seal_edges::<Surface>(alloc, master, &cover)?;
            self.push(set, cover, tokens)?;
        }
        Ok(node)
    }

    /// The surface for a wanted set, after the graph's nodes and those that are planned already;
    /// the node of a new set is planned. After a fault no more is planned here.
    pub fn surface_for<S: Graph<Surface, W>>(
        &mut self,
        alloc: Global,
        graph: &S,
        master: &Master,
        want: &Option<UserSet<W>>,
    ) -> Result<Option<u32>, GraphRefusal>
        requires planned { ArePlanned (S.contents graph.now).sets self.old }
        requires rooted { IfSome want.now (IsRooted (S.contents graph.now).sets) }
        ensures ok { IfOk result (IsSurfaceFor master.now.bytes (nodes_of (S.contents graph.now))
            want.now self.old self.new) }
        ensures err { IfErr result (IsFull (with_want master.now.bytes
            (nodes_planned (nodes_of (S.contents graph.now)) self.old) want.now).sets) }
    {
        match want {
            Some(set) => Ok(Some(self.node_for(alloc, graph, master, set)?)),
            None => Ok(None),
        }
    }
}
