//! Sets of twelve users in both graphs: filling one, finding a set, planning a new one, and the
//! longest chain among all 4,096.
ghost use Rattle.std.specs.Prelude.{◌≤◌};
ghost use Rattle.ov_base.specs.declared.limits.TheConstants.{MAX_SET_WORDS};

use ov_base::limits::{MAX_LAYER_NODES, SET_WORDS};
use ov_base::{Key, UserSet};
use ov_chain::shortest;
use ov_graph::{Graph, has_roots, plan_and_add};
use ov_tokens::{Base, Layer, Master};
use std::alloc::Global;
use std::test::Fail;

// Any master will do.
const MASTER: Key = Key { bytes: [7; 32] };

/// How many sets are asked for at a time.
const ASKED: u32 = 256;

/// How far one of these sets is from the next.
const STRIDE: u32 = 2_897;

// Adds a set, where its users have nodes alone.
fn put<L: Layer, G: Graph<L, W>, const W: usize>(
    alloc: Global,
    graph: &mut G,
    set: &UserSet<W>,
) -> Result<(), Fail> {
    if has_roots::<L, G, W>(graph, set) {
        plan_and_add::<L, G, W>(alloc, graph, &Master::new(&MASTER), set)?;
    }
    Ok(())
}

/// The set of those of the first twelve users whose bits are set.
fn set_of_bits<const W: usize>(bits: u32) -> UserSet<W>
    requires { (1 ≤ W) × (W ≤ MAX_SET_WORDS) }
{
    let mut set = UserSet::empty();
    for user in 0..12 {
        if bits >> user & 1 == 1 {
            set = set.with(user);
        }
    }
    set
}

/// Sets of twelve users until there are this many nodes, those of one user first.
fn fill<L: Layer, G: Graph<L, W>, const W: usize>(
    alloc: Global,
    graph: &mut G,
    nodes: u32,
) -> Result<(), Fail>
    requires { (1 ≤ W) × (W ≤ MAX_SET_WORDS) }
{
    for user in 0..12 {
        put::<L, G, W>(alloc, graph, &UserSet::empty().with(user))?;
    }
    for bits in 0..MAX_LAYER_NODES {
        if bits.count_ones() != 1 && graph.count() < nodes {
            put::<L, G, W>(alloc, graph, &set_of_bits(bits))?;
        }
    }
    Ok(())
}

/// Fills a graph, finds the chain from a user to all twelve as often as is said, and gives the
/// steps of all of these.
pub fn chains<G: Graph<Base, SET_WORDS>>(alloc: Global, times: u32) -> Result<usize, Fail> {
    let mut graph = G::new(alloc)?;
    fill::<Base, G, SET_WORDS>(alloc, &mut graph, MAX_LAYER_NODES)?;
    let mut steps = 0usize;
    for _ in 0..times {
        if graph.count() == MAX_LAYER_NODES {
            match shortest::<Base, G, SET_WORDS>(alloc, &graph, 0, MAX_LAYER_NODES - 1)? {
                Some(chain) => steps = steps.saturating_add(chain.steps.as_slice().len()),
                None => {}
            }
        }
    }
    Ok(steps)
}

/// Sets of nodes from all over a graph.
fn old_sets<G: Graph<Base, SET_WORDS>>(
    alloc: Global,
    graph: &G,
) -> Result<Vec<UserSet<SET_WORDS>>, Fail> {
    let mut sets = Vec::new(alloc);
    let nodes = graph.count();
    if nodes > 0 {
        for n in 0..ASKED {
            sets.push(graph.set_of(n * STRIDE % nodes))?;
        }
    }
    Ok(sets)
}

/// Sets of which no node has one: of twelve users, from all over these, and one user more.
fn new_sets(alloc: Global) -> Result<Vec<UserSet<SET_WORDS>>, Fail> {
    let mut sets = Vec::new(alloc);
    for n in 0..ASKED {
        sets.push(set_of_bits::<SET_WORDS>(n * STRIDE % MAX_LAYER_NODES).with(12))?;
    }
    Ok(sets)
}

/// Fills a graph with this many nodes, finds those of 256 sets as often as is said, and says how
/// many it found.
pub fn finds<G: Graph<Base, SET_WORDS>>(
    alloc: Global,
    nodes: u32,
    times: u32,
) -> Result<usize, Fail> {
    let mut graph = G::new(alloc)?;
    fill::<Base, G, SET_WORDS>(alloc, &mut graph, nodes)?;
    let sets = old_sets::<G>(alloc, &graph)?;
    let mut found = 0usize;
    for _ in 0..times {
        for set in &sets {
            if graph.find(set).is_some() {
                found = found.saturating_add(1);
            }
        }
    }
    Ok(found)
}

/// Fills a graph with one node fewer than this many, plans each of 256 new sets as often as is
/// said, and says how many edges these would get.
pub fn plans<G: Graph<Base, SET_WORDS>>(
    alloc: Global,
    nodes: u32,
    times: u32,
) -> Result<usize, Fail> {
    let mut graph = G::new(alloc)?;
    fill::<Base, G, SET_WORDS>(alloc, &mut graph, nodes.saturating_sub(1))?;
    graph.known();
    let sets = new_sets(alloc)?;
    let mut edges = 0usize;
    for _ in 0..times {
        for set in &sets {
            let cover = graph.plan(alloc, &[], set)?;
            edges = edges.saturating_add(cover.from.as_slice().len());
        }
    }
    Ok(edges)
}
