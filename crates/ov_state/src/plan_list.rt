//! Grants and revocations as changes.
ghost use Rattle.std.specs.Prelude.{◌≡◌, ◌*◌};
ghost use Rattle.ov_history.specs.Lists.{byte_sum};
ghost use Rattle.ov_history.specs.Catalogue.{matrix_shown};
ghost use Rattle.ov_record.specs.Briefs.{BriefGrant, BriefRevoke};
ghost use Rattle.ov_state.specs.Plans.{Prepares};
ghost use Rattle.ov_state.specs.Relistings.{access_of, change_with};

use crate::change::{Change, Growth};
use crate::fault::PrepareFault;
use crate::new_nodes::NewNodes;
use crate::relisting::Verb;
use crate::rewrites::Rewrites;
use crate::state::State;
use ov_base_layer::Grant;
use ov_graph::Graph;
use ov_tokens::{Base, Master, Surface, Token};
use std::alloc::Global;

/// The place of the access token's flag in the spelling of a grant: behind the kind and both
/// numbers.
const ACCESS_PLACE: u32 = 1 + 4 + 4;

/// What grows by a grant: an access token, where there is one.
fn access(user: u32, node: u32, token: Option<Token>) -> Growth
    ensures { result ≡ access_of user node token }
{
    match token {
        Some(token) => Growth::Access(Grant { user, node, token }),
        None => Growth::Nothing,
    }
}

impl<B: Graph<Base, W>, S: Graph<Surface, W>, const W: usize> State<B, S, W> {
    /// The change with these surface nodes and these rewrites, in which no file's length changes.
    fn relisted(&self, growth: Growth, plan: Rewrites<W>) -> Change<W>
        ensures { let size = byte_sum (matrix_shown self.now.catalogue).files in
            result ≡ change_with size growth plan.entry }
    {
        let Rewrites { nodes, list, .. } = plan;
        let NewNodes { nodes, sets: _ } = nodes;
        Change {
            growth,
            base: None,
            surface: nodes,
            rewrites: list,
            size: self.size,
        }
    }

    /// The grant of a file to a user as a change, under the surface master. The access token has to
    /// be there exactly where the user doesn't hold the file's base node.
    pub(crate) fn plan_grant(
        &self,
        alloc: Global,
        surface: &Master,
        user: u32,
        file: u32,
        token: Option<Token>,
    ) -> Result<Change<W>, PrepareFault>
        ensures { Prepares (64 * W) surface.now.bytes self.now.catalogue
            (BriefGrant user file token) result }
    {
        self.known();
        let relisting = self.decided(user, file, Verb::Grant)?;
        let mut plan = Rewrites::new(alloc, surface);
        self.over_wants(&relisting, &mut plan)?;
        if token.is_some() == relisting.before.contains(user) {
            return Err(PrepareFault::BadPlan { at: ACCESS_PLACE });
        }
        Ok(self.relisted(access(user, relisting.node, token), plan))
    }

    /// The revocation of a file from a user as a change, under the surface master.
    pub(crate) fn plan_revoke(
        &self,
        alloc: Global,
        surface: &Master,
        user: u32,
        file: u32,
    ) -> Result<Change<W>, PrepareFault>
        ensures { Prepares (64 * W) surface.now.bytes self.now.catalogue
            (BriefRevoke user file) result }
    {
        self.known();
        let relisting = self.decided(user, file, Verb::Revoke)?;
        let mut plan = Rewrites::new(alloc, surface);
        self.over_wants(&relisting, &mut plan)?;
        Ok(self.relisted(Growth::Nothing, plan))
    }
}
