//! What an owner is told before an update.
ghost use Rattle.std.specs.Prelude.{◌≡◌, ◌<◌, ◌≤◌, ◌*◌, Contains, is_some, length, true};
ghost use Rattle.ov_base.specs.Sets.{single};
ghost use Rattle.ov_base.specs.declared.limits.TheConstants.{MAX_SET_WORDS};
ghost use Rattle.ov_history.specs.Asking.{file_named, key_refusal, newcomer, of_both, of_grant};
ghost use Rattle.ov_history.specs.Asking.{of_file, of_user, refusal_at, user_named};
ghost use Rattle.ov_history.specs.History.{Enrolled, Granted, Removed, Revoked};
ghost use Rattle.ov_history.specs.Layers.{root_of};
ghost use Rattle.ov_history.specs.Places.{living_at};
ghost use Rattle.ov_state.specs.Asking.{numbers_of, Asks, Tells};

use crate::chains::root;
use crate::fault::ChainFault;
use crate::new_sets::NewSets;
use crate::relisting::Verb;
use crate::state::State;
use ov_base::{Name, Refusal};
use ov_base_layer::BaseLayer;
use ov_graph::Graph;
use ov_tokens::{Base, Surface};
use std::alloc::Global;

/// What an owner needs to know for an update: the number of a user and of the user's root in each
/// layer, that of a file and of its base node, and whether the user needs an access token to that
/// node. What wasn't asked for is 0.
#[derive(Clone, Copy, Debug, PartialEq, Eq)]
pub struct Asked {
    pub user: u32,
    pub base_root: u32,
    pub surface_root: u32,
    pub file: u32,
    pub node: u32,
    pub wants: bool,
}

/// The root of a user in the base layer.
fn root_in<B: Graph<Base, W>, const W: usize>(layer: &BaseLayer<B, W>, user: u32) -> u32
    requires width { (1 ≤ W) × (W ≤ MAX_SET_WORDS) }
    requires user { user < 64 * W }
    requires rooted { Contains layer.now.graph.sets (single user) }
    ensures { result ≡ root_of layer.now.graph.sets user }
{
    root::<Base, B, W>(layer.graph(), user)
}

impl<B: Graph<Base, W>, S: Graph<Surface, W>, const W: usize> State<B, S, W> {
    /// What is told of a user.
    pub fn told_of_user(&self, user: u32) -> Asked
        requires { user < length self.now.catalogue.users }
        ensures { numbers_of result ≡ of_user self.now.catalogue user }
    {
        self.known();
        Asked {
            user,
            base_root: root_in(&self.base, user),
            surface_root: root::<Surface, S, W>(&self.surface, user),
            file: 0,
            node: 0,
            wants: false,
        }
    }

    /// What is told of a user and a file.
    fn told_of_both(&self, user: u32, file: u32) -> Asked
        requires user { user < length self.now.catalogue.users }
        requires file { is_some (living_at self.now.catalogue.files file) ≡ true }
        ensures { numbers_of result ≡ of_both self.now.catalogue user file }
    {
        let node = self.entry(file).node;
        Asked {
            file,
            node,
            ..self.told_of_user(user)
        }
    }

    /// What is told of a file alone.
    fn told_of_file(&self, file: u32) -> Asked
        requires { is_some (living_at self.now.catalogue.files file) ≡ true }
        ensures { numbers_of result ≡ of_file self.now.catalogue file }
    {
        Asked {
            user: 0,
            base_root: 0,
            surface_root: 0,
            file,
            node: self.entry(file).node,
            wants: false,
        }
    }

    /// What is told of a user who is to be enrolled: which numbers the user and both roots will
    /// get. It is refused exactly where the enrolment is.
    pub fn ask_enrol(&self, user: &Name) -> Result<Asked, Refusal>
        ensures { let c = self.now.catalogue in
            Tells (refusal_at c (Enrolled user.now)) (newcomer c) result }
    {
        self.known();
        if let Some(why) = self.refusal_enrol(user) {
            return Err(why);
        }
        Ok(Asked {
            user: self.users.len() as u32,
            base_root: self.base.graph().count(),
            surface_root: self.surface.count(),
            file: 0,
            node: 0,
            wants: false,
        })
    }

    /// What is told of a user who is to be granted a file. It is refused exactly where the grant
    /// is. No file's bytes are looked at.
    pub fn ask_grant(&self, alloc: Global, user: &Name, file: &Name) -> Result<Asked, ChainFault>
        ensures { let c = self.now.catalogue in
            let u = user_named c user.now in let f = file_named c file.now in
            Asks (refusal_at c (Granted u f)) (of_grant c u f) result }
    {
        self.known();
        let user = self.user_or_next(user);
        let file = self.file_or_next(file);
        let relisting = self.decided(user, file, Verb::Grant)?;
        self.over_wants(&relisting, &mut NewSets::new(alloc))?;
        let mut asked = self.told_of_both(user, file);
        asked.wants = !relisting.before.contains(user);
        Ok(asked)
    }

    /// What is told of a user from whom a file is to be revoked. It is refused exactly where the
    /// revocation is. No file's bytes are looked at.
    pub fn ask_revoke(&self, alloc: Global, user: &Name, file: &Name) -> Result<Asked, ChainFault>
        ensures { let c = self.now.catalogue in
            let u = user_named c user.now in let f = file_named c file.now in
            Asks (refusal_at c (Revoked u f)) (of_both c u f) result }
    {
        self.known();
        let user = self.user_or_next(user);
        let file = self.file_or_next(file);
        let relisting = self.decided(user, file, Verb::Revoke)?;
        self.over_wants(&relisting, &mut NewSets::new(alloc))?;
        Ok(self.told_of_both(user, file))
    }

    /// What is told of a file that is to be removed. It is refused exactly where the removal is.
    pub fn ask_remove(&self, file: &Name) -> Result<Asked, ChainFault>
        ensures { let c = self.now.catalogue in let f = file_named c file.now in
            Asks (refusal_at c (Removed f)) (of_file c f) result }
    {
        let file = self.file_or_next(file);
        if let Some(why) = self.refusal_remove(file) {
            return Err(ChainFault::Refused(why));
        }
        Ok(self.told_of_file(file))
    }

    /// What is told of a user whose keys are asked for: NoUser exactly where there is none of this
    /// name.
    pub fn ask_key(&self, user: &Name) -> Result<Asked, Refusal>
        ensures { let c = self.now.catalogue in let u = user_named c user.now in
            Tells (key_refusal c u) (of_user c u) result }
    {
        match self.user_number(user) {
            Some(user) => Ok(self.told_of_user(user)),
            None => Err(Refusal::NoUser),
        }
    }
}
