//! A set and its tokens, added in one call.
ghost use Rattle.std.specs.Prelude.{◌≡◌, IfOk, OnErr, OnOk};
ghost use Rattle.ov_graph.specs.Contents.{node_for};
ghost use Rattle.ov_graph.specs.Reach.{IsRooted};
ghost use Rattle.ov_graph.specs.Seals.{HasSetBesides};

use crate::{Graph, GraphRefusal, seal_edges};
use ov_base::UserSet;
use ov_tokens::{Layer, Master};
use std::alloc::Global;

/// The node of a set, which is added where no node has it: it is planned, its edges get their
/// tokens under the layer's master, room is made, and it is added. Where that is refused, no set
/// and no edge is new.
pub fn plan_and_add<L: Layer, G: Graph<L, W>, const W: usize>(
    alloc: Global,
    graph: &mut G,
    master: &Master,
    set: &UserSet<W>,
) -> Result<u32, GraphRefusal>
    requires roots { IsRooted (G.contents graph.old).sets set.now }
    ensures node { IfOk result (λ node. node ≡ node_for (G.contents graph.old).sets set.now) }
    ensures added { let old = G.contents graph.old in let new = G.contents graph.new in
        OnOk result (HasSetBesides L.label_kind master.now.bytes set.now old new) }
    ensures sets { OnErr result ((G.contents graph.new).sets ≡ (G.contents graph.old).sets) }
    ensures edges { OnErr result ((G.contents graph.new).edges ≡ (G.contents graph.old).edges) }
{
    graph.known();
    let cover = graph.plan(alloc, &[], set)?;
    let node = cover.node;
    if cover.fresh {
        let tokens = seal_edges::<L>(alloc, master, &cover)?;
        // A cover has at most as many starts as its set has users.
        graph.reserve(1, set.count())?;
        graph.add(set, cover, tokens);
    }
    Ok(node)
}
