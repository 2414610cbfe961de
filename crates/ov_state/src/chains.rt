//! The chains from the roots of a user to the nodes of a file.
ghost use Rattle.std.specs.Prelude.{◌≡◌, ◌<◌, ◌≤◌, ◌*◌, slice_index, Contains, IfOk};
ghost use Rattle.std.specs.Option.{ForSome};
ghost use Rattle.ov_base.specs.Sets.{Has, single};
ghost use Rattle.ov_base.specs.declared.limits.TheConstants.{MAX_SET_WORDS};
ghost use Rattle.ov_graph.specs.Contents.{HasNode};
ghost use Rattle.ov_tokens.specs.Labels.{label_of};
ghost use Rattle.ov_tokens.specs.declared.label.Kind.TheVariants.{Derive};
ghost use Rattle.ov_base_layer.specs.BaseContents.{holders_of};
ghost use Rattle.ov_base_layer.specs.Holders.{accesses_of};
ghost use Rattle.ov_history.specs.Layers.{root_of};
ghost use Rattle.ov_state.specs.Contents.{nodes_of};
ghost use Rattle.ov_history.specs.Chains.{IsAccessChain, IsBaseChain, IsEdgeChain, IsSurfaceChain};

use ov_base::{Memory, UserSet};
use ov_base_layer::{BaseLayer, Grant};
use ov_chain::shortest;
use ov_graph::Graph;
use ov_tokens::{Base, Chain, Kind, Label, Layer, Step, Steps, Surface, Token};
use std::alloc::Global;

/// The root of a user: the node of the user alone.
pub fn root<L: Layer, G: Graph<L, W>, const W: usize>(graph: &G, user: u32) -> u32
    requires width { (1 ≤ W) × (W ≤ MAX_SET_WORDS) }
    requires user { user < 64 * W }
    requires there { Contains (G.contents graph.now).sets (single user) }
    ensures root { result ≡ root_of (G.contents graph.now).sets user }
    ensures there { HasNode (G.contents graph.now) result }
    ensures alone { slice_index (G.contents graph.now).sets result ≡ single user }
{
    match graph.find(&UserSet::empty().with(user)) {
        Some(node) => node,
        None => unreachable!(),
    }
}

/// The shortest chain over the edges of a layer, from the root of a user to a node whose set has
/// the user.
fn edge_chain<L: Layer, G: Graph<L, W>, const W: usize>(
    alloc: Global,
    graph: &G,
    user: u32,
    node: u32,
) -> Result<Chain, Memory>
    requires width { (1 ≤ W) × (W ≤ MAX_SET_WORDS) }
    requires user { user < 64 * W }
    requires rooted { Contains (G.contents graph.now).sets (single user) }
    requires node { HasNode (G.contents graph.now) node }
    requires member { Has (slice_index (G.contents graph.now).sets node) user }
    ensures { IfOk result (λ chain.
        IsEdgeChain L.label_kind (nodes_of (G.contents graph.now)) user node chain) }
{
    let root = root::<L, G, W>(graph, user);
    match shortest::<L, G, W>(alloc, graph, root, node)? {
        Some(chain) => Ok(chain),
        None => unreachable!(),
    }
}

/// The first access token of the user to the node.
fn access_token(grants: &[Grant], user: u32, node: u32) -> Token
    requires { Contains (accesses_of grants.now) (record { user = user; node = node }) }
    ensures { Contains grants.now (record { user = user; node = node; token = result }) }
{
    for grant in grants {
        if grant.user == user && grant.node == node {
            return grant.token;
        }
    }
    unreachable!()
}

/// The one step from the root of a user over an access token to a base node.
fn access_chain<B: Graph<Base, W>, const W: usize>(
    alloc: Global,
    layer: &BaseLayer<B, W>,
    user: u32,
    node: u32,
) -> Result<Chain, Memory>
    requires user { user < 64 * W }
    requires rooted { Contains layer.now.graph.sets (single user) }
    requires there { Contains (accesses_of layer.now.grants) (record { user = user; node = node }) }
    ensures { IfOk result (λ chain.
        IsAccessChain (nodes_of layer.now.graph) layer.now.grants user node chain) }
{
    layer.known();
    let to = Label {
        kind: Kind::Access,
        number: node,
    };
    let token = access_token(layer.accesses(), user, node);
    let mut steps = Steps::new(alloc);
    steps.push(Step { to, token })?;
    Ok(Chain {
        root: root::<Base, B, W>(layer.graph(), user),
        steps,
    })
}

/// The base chain of a holder of a base node: over edges where the user is in the node's set, and
/// over the access token of the user where not.
pub fn base_chain<B: Graph<Base, W>, const W: usize>(
    alloc: Global,
    layer: &BaseLayer<B, W>,
    user: u32,
    node: u32,
) -> Result<Chain, Memory>
    requires user { user < 64 * W }
    requires rooted { Contains layer.now.graph.sets (single user) }
    requires node { HasNode layer.now.graph node }
    requires holder { Has (holders_of layer.now node) user }
    ensures { IfOk result (λ chain.
        IsBaseChain (nodes_of layer.now.graph) layer.now.grants user node chain) }
{
    layer.known();
    if layer.graph().set_of(node).contains(user) {
        edge_chain::<Base, B, W>(alloc, layer.graph(), user, node)
    } else {
        access_chain(alloc, layer, user, node)
    }
}

/// The surface chain of a user to a surface whose set has the user, where there is one.
pub fn surface_chain<S: Graph<Surface, W>, const W: usize>(
    alloc: Global,
    graph: &S,
    user: u32,
    surface: Option<u32>,
) -> Result<Option<Chain>, Memory>
    requires width { (1 ≤ W) × (W ≤ MAX_SET_WORDS) }
    requires user { user < 64 * W }
    requires rooted { Contains (S.contents graph.now).sets (single user) }
    requires node { ForSome surface (λ node. HasNode (S.contents graph.now) node) }
    requires member { ForSome surface (λ node.
        Has (slice_index (S.contents graph.now).sets node) user) }
    ensures { IfOk result (λ chain.
        IsSurfaceChain (nodes_of (S.contents graph.now)) user surface chain) }
{
    match surface {
        Some(node) => {
            let chain = edge_chain::<Surface, S, W>(alloc, graph, user, node)?;
            Ok(Some(chain))
        }
        None => Ok(None),
    }
}
