//! The tokens that the owner makes.
ghost use Rattle.std.specs.Prelude.{◌≡◌, IfOk};
ghost use Rattle.ov_tokens.specs.declared.label.Kind.TheVariants.{Derive};
ghost use Rattle.ov_base_layer.specs.Seals.{access_token, cover_tokens};

use ov_base::Memory;
use ov_graph::{Cover, seal_edges};
use ov_tokens::{Base, Kind, Label, Layer, Master, Token, Tokens, access_key, make};
use std::alloc::Global;

/// The tokens of the edges of a fresh cover of the base layer, under the base master.
pub fn seal_cover(alloc: Global, master: &Master, cover: &Cover) -> Result<Tokens, Memory>
    ensures { IfOk result (λ tokens. tokens ≡ cover_tokens Derive master.now.bytes cover.now) }
{
    seal_edges::<Base>(alloc, master, cover)
}

/// The access token that leads from the root of a user to a base node: from the derivation key of
/// the root to the access key of the node, under the base master. It takes no memory.
pub fn seal_access(master: &Master, root: u32, node: u32) -> Token
    ensures { result ≡ access_token master.now.bytes root node }
{
    let access = access_key(&Base::key_of(master, node));
    let label = Label {
        kind: Kind::Access,
        number: node,
    };
    make(&Base::key_of(master, root), label, &access)
}
