//! The users to whom access tokens were published.
ghost use Rattle.std.specs.Prelude.{◌≡◌, ◌<◌, ◌*◌, Contains};
ghost use Rattle.ov_base_layer.specs.Holders.{accesses_of, with_accesses, Access};

use crate::Grant;
use ov_base::UserSet;

/// The set with every user to whom one of these access tokens to the node was published.
pub fn with_accesses<const W: usize>(set: UserSet<W>, grants: &[Grant], node: u32) -> UserSet<W>
    requires { (access : Access) → Contains (accesses_of grants.now) access → access.user < 64 * W }
    ensures { result ≡ with_accesses (accesses_of grants.now) node set.entry }
{
    let mut holders = set;
    for grant in grants {
        if grant.node == node {
            holders = holders.with(grant.user);
        }
    }
    holders
}
