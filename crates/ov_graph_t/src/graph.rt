//! Lists at several widths, and a list that is full.

use crate::few::four_users;
use crate::sets::{expect_edges, expect_full, fill, put};
use ov_base::UserSet;
use ov_base::limits::MAX_SET_WORDS;
use ov_graph::{Graph, ListGraph, has_roots};
use ov_tokens::{Base, Surface};
use std::test::Fail;

#[test]
fn four_users_at_each_width(rt: HostRuntime) -> Result<(), Fail> {
    four_users::<Base, ListGraph<Base, 1>, 1>(&rt, rt.alloc())?;
    four_users::<Surface, ListGraph<Surface, 4>, 4>(&rt, rt.alloc())?;
    four_users::<Base, ListGraph<Base, 16>, 16>(&rt, rt.alloc())?;
    Ok(())
}

/// The last user of the widest sets has a root, and a pair over it.
#[test]
fn the_widest_sets(rt: HostRuntime) -> Result<(), Fail> {
    let mut graph: ListGraph<Base, MAX_SET_WORDS> = ListGraph::new(rt.alloc())?;
    let first = UserSet::empty().with(0);
    let pair = first.with(65_535);
    assert!(rt; !has_roots(&graph, &pair));
    for set in [&first, &pair.without(0), &pair] {
        put(&rt, rt.alloc(), &mut graph, set)?;
    }
    assert_eq!(rt; graph.count(), 3);
    expect_edges(&rt, &graph, 2, &[0, 1]);
    Ok(())
}

#[test]
fn a_full_graph_takes_no_new_set(rt: HostRuntime) -> Result<(), Fail> {
    let mut graph: ListGraph<Base, 1> = ListGraph::new(rt.alloc())?;
    fill(&rt, rt.alloc(), &mut graph)?;
    expect_full(&rt, rt.alloc(), &graph)
}
