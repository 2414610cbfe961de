//! The tokens of edges, which the owner of a layer makes.
ghost use Rattle.std.specs.Prelude.{◌≡◌, IfOk};
ghost use Rattle.ov_graph.specs.Seals.{cover_tokens};

use crate::Cover;
use ov_base::Memory;
use ov_tokens::{Layer, Master, Tokens, make};
use std::alloc::Global;

/// The tokens of the edges of a fresh cover in a layer, under the layer's master: each leads from
/// the key of the edge's start to the key of the cover's node.
pub fn seal_edges<L: Layer>(alloc: Global, master: &Master, cover: &Cover) -> Result<Tokens, Memory>
    ensures { IfOk result (λ tokens.
        tokens ≡ cover_tokens L.label_kind master.now.bytes cover.now) }
{
    let label = L::label(cover.node);
    let key = L::key_of(master, cover.node);
    let mut tokens = Tokens::new(alloc);
    for from in cover.from.as_slice() {
        tokens.push(make(&L::key_of(master, *from), label, &key))?;
    }
    Ok(tokens)
}
