//! The nodes of users alone.
ghost use Rattle.std.specs.Prelude.{◌≡◌, ◌<◌, ◌≤◌, ◌*◌, slice_index, true, false, Contains};
ghost use Rattle.ov_base.specs.Sets.{single};
ghost use Rattle.ov_base.specs.declared.limits.TheConstants.{MAX_SET_WORDS};
ghost use Rattle.ov_graph.specs.Contents.{root_of, HasNode};
ghost use Rattle.ov_graph.specs.Reach.{IsRooted};

use crate::Graph;
use ov_base::UserSet;
use ov_tokens::Layer;

/// The set of a user alone.
fn alone<const W: usize>(user: u32) -> UserSet<W>
    requires width { (1 ≤ W) × (W ≤ MAX_SET_WORDS) }
    requires user { user < 64 * W }
    ensures { result ≡ single user }
{
    UserSet::empty().with(user)
}

/// The root of a user: the node of the user alone. It takes no memory.
pub fn root<L: Layer, G: Graph<L, W>, const W: usize>(graph: &G, user: u32) -> u32
    requires width { (1 ≤ W) × (W ≤ MAX_SET_WORDS) }
    requires user { user < 64 * W }
    requires there { Contains (G.contents graph.now).sets (single user) }
    ensures root { result ≡ root_of (G.contents graph.now).sets user }
    ensures there { HasNode (G.contents graph.now) result }
    ensures alone { slice_index (G.contents graph.now).sets result ≡ single user }
{
    match graph.find(&alone(user)) {
        Some(node) => node,
        None => unreachable!(),
    }
}

/// Whether a set may be added: where it has two users or more, each has a node alone. It takes no
/// memory.
pub fn has_roots<L: Layer, G: Graph<L, W>, const W: usize>(graph: &G, set: &UserSet<W>) -> bool
    ensures yes { result ≡ true → IsRooted (G.contents graph.now).sets set.now }
    ensures no { result ≡ false → ¬ IsRooted (G.contents graph.now).sets set.now }
{
    if set.count() < 2 {
        return true;
    }
    for user in 0..64 * W as u32 {
        if set.contains(user) && graph.find(&alone(user)).is_none() {
            return false;
        }
    }
    true
}
