//! Calls that change a graph, one after the other.
ghost use Rattle.std.specs.Prelude.{◌≡◌, IfOk, OnOk};
ghost use Rattle.ov_graph_t.specs.Calls.{AreCalled, IsAdded, IsCalled};
ghost use Rattle.ov_index.specs.Agreement.{Agree};

use ov_base::{Memory, UserSet};
use ov_graph::{Graph, GraphRefusal, has_roots};
use ov_tokens::{Layer, Tokens};
use std::alloc::Global;

/// A call that changes a graph, or the room in it.
#[derive(Drop)]
pub enum Call<const W: usize> {
    /// Room is made for this many more sets and edges.
    Reserve { sets: u32, edges: u32 },
    /// The set is added, with these tokens for the edges of its cover.
    Add { set: UserSet<W>, tokens: Tokens },
}

fn copied(alloc: Global, tokens: &Tokens) -> Result<Tokens, Memory>
    ensures { IfOk result (λ copy. copy ≡ tokens.now) }
{
    Ok(Tokens::from_vec(tokens.as_slice().to_vec(alloc)?))
}

/// Adds a set with these tokens, or passes it over where the graph doesn't accept them.
fn add<L: Layer, G: Graph<L, W>, const W: usize>(
    alloc: Global,
    graph: &mut G,
    set: &UserSet<W>,
    tokens: &Tokens,
) -> Result<(), GraphRefusal>
    ensures { let old = G.contents graph.old in let new = G.contents graph.new in
        OnOk result (IsAdded set.now tokens.now old new) }
{
    graph.known();
    if !has_roots::<L, G, W>(graph, set) {
        return Ok(());
    }
    let cover = graph.plan(alloc, &[], set)?;
    if !cover.fresh || cover.from.as_slice().len() != tokens.as_slice().len() {
        return Ok(());
    }
    let tokens = copied(alloc, tokens)?;
    // A cover has at most as many starts as its set has users.
    graph.reserve(1, set.count())?;
    graph.add(set, cover, tokens);
    Ok(())
}

fn make<L: Layer, G: Graph<L, W>, const W: usize>(
    alloc: Global,
    graph: &mut G,
    call: &Call<W>,
) -> Result<(), GraphRefusal>
    ensures { let old = G.contents graph.old in let new = G.contents graph.new in
        OnOk result (IsCalled call.now old new) }
{
    match call {
        Call::Reserve { sets, edges } => Ok(graph.reserve(*sets, *edges)?),
        Call::Add { set, tokens } => add::<L, G, W>(alloc, graph, set, tokens),
    }
}

/// Makes these calls of a graph, one after the other.
pub fn call_each<L: Layer, G: Graph<L, W>, const W: usize>(
    alloc: Global,
    graph: &mut G,
    calls: &[Call<W>],
) -> Result<(), GraphRefusal>
    ensures { let old = G.contents graph.old in let new = G.contents graph.new in
        OnOk result (AreCalled calls.now old new) }
{
    for each in calls {
        make::<L, G, W>(alloc, graph, each)?;
    }
    Ok(())
}

/// Makes the same calls of two graphs with the same sets and edges, one after the other. A set that
/// they don't accept with its tokens is passed over. The graphs have the same sets and edges again.
pub fn call_both<L: Layer, A: Graph<L, W>, B: Graph<L, W>, const W: usize>(
    alloc: Global,
    one: &mut A,
    other: &mut B,
    calls: &[Call<W>],
) -> Result<(), GraphRefusal>
    requires same { Agree (A.contents one.old) (B.contents other.old) }
    ensures called { let old = A.contents one.old in let new = A.contents one.new in
        OnOk result (AreCalled calls.now old new) }
    ensures same { OnOk result (Agree (A.contents one.new) (B.contents other.new)) }
{
    call_each::<L, A, W>(alloc, one, calls)?;
    call_each::<L, B, W>(alloc, other, calls)?;
    Ok(())
}
