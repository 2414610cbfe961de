//! The indexed graph: its sets and edges in lists, and two orders of its nodes.
use crate::{by_set, by_size};
use ov_base::limits::MAX_LAYER_NODES;
use ov_base::{Memory, UserSet};
use ov_graph::rows::{Span, append, part, push_within};
use ov_graph::{Cover, Graph, GraphRefusal};
use ov_tokens::{Edge, Layer, Numbers, Tokens};
use std::alloc::Global;
use std::marker::{Model, PhantomData};

/// A graph that finds a set by halves, and keeps its candidates in the order of a cover.
#[derive(Drop)]
pub struct IndexGraph<L, const W: usize> {
    sets: Vec<UserSet<W>>,
    spans: Vec<Span>,
    edges: Vec<Edge>,
    by_set: Vec<u32>,
    by_size: Vec<u32>,
    layer: PhantomData<L>,
}

impl<L, const W: usize> Model for IndexGraph<L, W> {
    ghost use Rattle.std.specs.Prelude.{◌-◌, min, vec_len, vec_capacity};
    ghost use Rattle.ov_graph.specs.Contents.{Contents};
    ghost use Rattle.ov_graph.specs.Rows.{rows};
    ghost use Rattle.ov_index.specs.Orders.{IsIndexGraph};

    ghost Value = { Contents };

    ghost view = { λ g. record {
      sets = g.sets.items;
      edges = rows g.edges.items g.spans.items;
      spare_sets = min
          (min (vec_capacity g.sets - vec_len g.sets) (vec_capacity g.spans - vec_len g.spans))
          (min (vec_capacity g.by_set - vec_len g.by_set)
          (vec_capacity g.by_size - vec_len g.by_size));
      spare_edges = vec_capacity g.edges - vec_len g.edges;
    } };

    ghost invariant = { λ g. IsIndexGraph
        g.sets.items g.edges.items g.spans.items g.by_set.items g.by_size.items };
}

impl<L: Layer, const W: usize> Graph<L, W> for IndexGraph<L, W> {
    ghost contents = { λ g. g };

    fn new(alloc: Global) -> Result<Self, Memory> {
        Ok(IndexGraph {
            sets: Vec::new(alloc),
            spans: Vec::new(alloc),
            edges: Vec::new(alloc),
            by_set: Vec::new(alloc),
            by_size: Vec::new(alloc),
            layer: PhantomData,
        })
    }

    fn count(&self) -> u32 {
        self.sets.len() as u32
    }

    fn find(&self, set: &UserSet<W>) -> Option<u32> {
        by_set::find(&self.sets, &self.by_set, set)
    }

    fn set_of(&self, node: u32) -> UserSet<W> {
        self.sets[node as usize].copy()
    }

    fn in_tokens(&self, node: u32) -> &[Edge] {
        part(&self.edges, self.spans[node as usize])
    }

    fn plan(
        &self,
        alloc: Global,
        before: &[UserSet<W>],
        set: &UserSet<W>,
    ) -> Result<Cover, GraphRefusal> {
        let next = self.sets.len() + before.len();
        match by_set::find_in_both(&self.sets, &self.by_set, before, set) {
            Some(node) => Ok(Cover {
                node,
                fresh: false,
                from: Numbers::new(alloc),
            }),
            None if next == MAX_LAYER_NODES as usize => Err(GraphRefusal::NodesFull),
            None => Ok(Cover {
                node: next as u32,
                fresh: true,
                from: by_size::cover(alloc, &self.sets, before, &self.by_size, set)?,
            }),
        }
    }

    fn reserve(&mut self, sets: u32, edges: u32) -> Result<(), Memory> {
        self.sets.reserve(sets as usize)?;
        self.spans.reserve(sets as usize)?;
        self.by_set.reserve(sets as usize)?;
        self.by_size.reserve(sets as usize)?;
        self.edges.reserve(edges as usize)?;
        Ok(())
    }

    fn add(&mut self, set: &UserSet<W>, cover: Cover, tokens: Tokens) {
        let first = self.edges.len();
        let many = tokens.as_slice().len();
        append(&mut self.edges, cover.from.as_slice(), tokens.as_slice());
        push_within(&mut self.spans, Span { first, many });
        let node = self.sets.len() as u32;
        push_within(&mut self.sets, set.copy());
        by_set::insert(&self.sets, &mut self.by_set, node);
        by_size::insert(&self.sets, &[], &mut self.by_size, node);
    }

    fn known(&self) {
        let _sets = &self.sets;
    }
}
