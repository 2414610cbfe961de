//! The users of an audit, by number.
ghost use Rattle.std.specs.Prelude.{IfNone, IfSome};
ghost use Rattle.ov_auditing.specs.Exposed.{AreUsersOf, IsMissing};

use ov_base::{Name, Users};
use ov_state::Catalogue;

/// The set of the users of these names, where all of them are there.
pub fn users_named(state: &Catalogue, names: &[Name]) -> Option<Users>
    ensures found { IfSome result (AreUsersOf state.now.catalogue.users names.now) }
    ensures none { IfNone result (IsMissing state.now.catalogue.users names.now) }
{
    state.known();
    let mut users = Users::empty();
    for name in names {
        let user = state.user_number(name)?;
        users = users.with(user);
    }
    Some(users)
}
