//! The plain graph: its sets in a list, and its edges in another, with a span for each node.
use crate::covering::{cover, node_of};
use crate::rows::{Span, append, part, push_within};
use crate::{Cover, Graph, GraphRefusal};
use ov_base::limits::MAX_LAYER_NODES;
use ov_base::{Memory, UserSet};
use ov_tokens::{Edge, Layer, Numbers, Tokens};
use std::alloc::Global;
use std::marker::{Model, PhantomData};

/// A graph that looks at every node to find a set.
#[derive(Drop)]
pub struct ListGraph<L, const W: usize> {
    sets: Vec<UserSet<W>>,
    spans: Vec<Span>,
    edges: Vec<Edge>,
    layer: PhantomData<L>,
}

impl<L, const W: usize> Model for ListGraph<L, W> {
    ghost use Rattle.std.specs.Prelude.{◌-◌, min, vec_len, vec_capacity};
    ghost use Rattle.ov_graph.specs.Contents.{Contents};
    ghost use Rattle.ov_graph.specs.Rows.{rows, IsListGraph};

    ghost Value = { Contents };

    ghost view = { λ g. record {
      sets = g.sets.items;
      edges = rows g.edges.items g.spans.items;
      spare_sets =
          min (vec_capacity g.sets - vec_len g.sets) (vec_capacity g.spans - vec_len g.spans);
      spare_edges = vec_capacity g.edges - vec_len g.edges;
    } };

    ghost invariant = { λ g. IsListGraph g.sets.items g.edges.items g.spans.items };
}

impl<L: Layer, const W: usize> Graph<L, W> for ListGraph<L, W> {
    ghost contents = { λ g. g };

    fn new(alloc: Global) -> Result<Self, Memory> {
        Ok(ListGraph {
            sets: Vec::new(alloc),
            spans: Vec::new(alloc),
            edges: Vec::new(alloc),
            layer: PhantomData,
        })
    }

    fn count(&self) -> u32 {
        self.sets.len() as u32
    }

    fn find(&self, set: &UserSet<W>) -> Option<u32> {
        node_of(&self.sets, &[], set)
    }

    fn set_of(&self, node: u32) -> UserSet<W> {
        self.sets[node as usize].copy()
    }

    fn in_tokens(&self, node: u32) -> &[Edge] {
        part(&self.edges, self.spans[node as usize])
    }

    fn plan(
        &self,
        alloc: Global,
        before: &[UserSet<W>],
        set: &UserSet<W>,
    ) -> Result<Cover, GraphRefusal> {
        let next = self.sets.len() + before.len();
        match node_of(&self.sets, before, set) {
            Some(node) => Ok(Cover {
                node,
                fresh: false,
                from: Numbers::new(alloc),
            }),
            None if next == MAX_LAYER_NODES as usize => Err(GraphRefusal::NodesFull),
            None => Ok(Cover {
                node: next as u32,
                fresh: true,
                from: cover(alloc, &self.sets, before, set)?,
            }),
        }
    }

    fn reserve(&mut self, sets: u32, edges: u32) -> Result<(), Memory> {
        self.sets.reserve(sets as usize)?;
        self.spans.reserve(sets as usize)?;
        self.edges.reserve(edges as usize)?;
        Ok(())
    }

    fn add(&mut self, set: &UserSet<W>, cover: Cover, tokens: Tokens) {
        let first = self.edges.len();
        let many = tokens.as_slice().len();
        append(&mut self.edges, cover.from.as_slice(), tokens.as_slice());
        push_within(&mut self.spans, Span { first, many });
        push_within(&mut self.sets, set.copy());
    }

    fn known(&self) {
        let _sets = &self.sets;
    }
}
