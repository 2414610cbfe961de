//! A base layer of three users over any graph, and tokens that another program gives.
ghost use Rattle.std.specs.Prelude.{◌≤◌};
ghost use Rattle.ov_base.specs.declared.limits.TheConstants.{MAX_SET_WORDS};

mod vectors;

use ov_base::limits::MAX_LAYER_NODES;
use ov_base::{Key, UserSet};
use ov_base_layer::*;
use ov_graph::{Cover, Graph, ListGraph, has_roots};
use ov_tokens::{Base, Kind, Label, Layer, Master, Numbers, access_key, derive};
use std::alloc::Global;
use std::process::Abort;
use std::test::Fail;
use vectors::{ACCESSES, COVERS};

/// The master whose first byte is `start`, each next byte one more.
fn master_from(start: u8) -> Master {
    let mut bytes = [0u8; 32];
    let mut next = start;
    for byte in &mut bytes {
        *byte = next;
        next = next.wrapping_add(1);
    }
    Master::new(&Key { bytes })
}

#[test]
fn tokens_of_another_program(rt: HostRuntime) -> Result<(), Fail> {
    for row in &COVERS {
        let cover = Cover {
            node: row.node,
            fresh: true,
            from: Numbers::from_vec(row.from.to_vec(rt.alloc())?),
        };
        let tokens = seal_cover(rt.alloc(), &master_from(row.start), &cover)?;
        assert_eq!(rt; tokens.as_slice(), row.tokens);
    }
    for row in &ACCESSES {
        let token = seal_access(&master_from(row.start), row.root, row.node);
        assert_eq!(rt; token, row.token);
    }
    Ok(())
}

/// Adds a set that is new, as the owner and the server do together.
fn put<G: Graph<Base, W>, const W: usize>(
    rt: &impl Abort,
    alloc: Global,
    layer: &mut BaseLayer<G, W>,
    master: &Master,
    set: &UserSet<W>,
) -> Result<(), Fail> {
    assert!(rt; layer.graph().count() < MAX_LAYER_NODES);
    assert!(rt; has_roots::<Base, G, W>(layer.graph(), set));
    let cover = layer.plan_create(alloc, set)?;
    assert!(rt; cover.fresh);
    let tokens = seal_cover(alloc, master, &cover)?;
    layer.reserve(1, set.count())?;
    layer.add(set, cover, tokens);
    Ok(())
}

/// Gives a user access to a node, where the user isn't a holder.
fn give<G: Graph<Base, W>, const W: usize>(
    rt: &impl Abort,
    layer: &mut BaseLayer<G, W>,
    grant: Grant,
) -> Result<(), Fail> {
    layer.known();
    assert!(rt; grant.node < layer.graph().count() && grant.user < 64 * W as u32);
    assert!(rt; layer.plan_grant(grant.user, grant.node));
    layer.reserve_access()?;
    layer.add_access(grant);
    Ok(())
}

/// The users a and b.
fn pair<const W: usize>() -> UserSet<W>
    requires { (1 ≤ W) × (W ≤ MAX_SET_WORDS) }
{
    UserSet::empty().with(0).with(1)
}

/// The holders of the nodes before c is given access to the node 3.
fn expect_before<G: Graph<Base, W>, const W: usize>(rt: &impl Abort, layer: &BaseLayer<G, W>)
    requires { (1 ≤ W) × (W ≤ MAX_SET_WORDS) }
{
    assert_eq!(rt; layer.graph().count(), 4);
    assert!(rt; layer.holders(3) == pair());
    assert!(rt; layer.plan_grant(2, 3));
    assert!(rt; !layer.plan_grant(1, 3));
}

/// The holders of the nodes after c was given access to the node 3.
fn expect_after<G: Graph<Base, W>, const W: usize>(rt: &impl Abort, layer: &BaseLayer<G, W>)
    requires { (1 ≤ W) × (W ≤ MAX_SET_WORDS) }
{
    assert_eq!(rt; layer.graph().count(), 4);
    assert!(rt; layer.holders(3) == UserSet::empty().with(0).with(1).with(2));
    assert!(rt; layer.holders(1) == UserSet::empty().with(1));
    assert!(rt; !layer.plan_grant(2, 3));
    assert!(rt; layer.plan_grant(2, 1));
}

/// Makes sure that a list of a and b has the node 3 already.
fn expect_old<G: Graph<Base, W>, const W: usize>(
    rt: &impl Abort,
    alloc: Global,
    layer: &BaseLayer<G, W>,
) -> Result<(), Fail>
    requires { (1 ≤ W) × (W ≤ MAX_SET_WORDS) }
{
    let again = layer.plan_create(alloc, &pair())?;
    assert_eq!(rt; (again.node, again.fresh), (3, false));
    Ok(())
}

/// Users a, b and c at nodes 0 to 2, {a, b} at node 3, and access to it for c.
fn three_users<G: Graph<Base, W>, const W: usize>(
    rt: &impl Abort,
    alloc: Global,
    mut layer: BaseLayer<G, W>,
) -> Result<(), Fail>
    requires { (1 ≤ W) × (W ≤ MAX_SET_WORDS) }
{
    let master = master_from(0);
    for user in 0..3 {
        put(rt, alloc, &mut layer, &master, &UserSet::empty().with(user))?;
    }
    put(rt, alloc, &mut layer, &master, &pair())?;
    expect_before(rt, &layer);
    let grant = Grant {
        user: 2,
        node: 3,
        token: seal_access(&master, 2, 3),
    };
    give(rt, &mut layer, grant)?;
    expect_after(rt, &layer);
    assert_eq!(rt; layer.accesses(), [grant].as_slice());
    expect_old(rt, alloc, &layer)
}

#[test]
fn three_users_at_each_width(rt: HostRuntime) -> Result<(), Fail> {
    three_users::<ListGraph<Base, 1>, 1>(&rt, rt.alloc(), BaseLayer::new(rt.alloc())?)?;
    three_users::<ListGraph<Base, 4>, 4>(&rt, rt.alloc(), BaseLayer::new(rt.alloc())?)?;
    Ok(())
}

/// An access token leads to the access key of its node.
#[test]
fn an_access_token_leads_to_the_access_key(rt: HostRuntime) {
    let master = master_from(9);
    let to = Label {
        kind: Kind::Access,
        number: 3,
    };
    let key = derive(&Base::key_of(&master, 2), to, &seal_access(&master, 2, 3));
    assert_eq!(rt; key.bytes, access_key(&Base::key_of(&master, 3)).bytes);
}
