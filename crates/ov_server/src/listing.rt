//! The names in a file's list.
ghost use Rattle.std.specs.Prelude.{◌≡◌, ◌+◌, ◌<◌, length, take, IfOk, OnOk};
ghost use Rattle.ov_base.specs.NameLists.{AreDistinct};
ghost use Rattle.ov_history.specs.Asking.{file_named};
ghost use Rattle.ov_history.specs.Lists.{names_in};
ghost use Rattle.ov_wire.specs.AnswerForm.{HasAnswerForm};
ghost use Rattle.ov_protocol.specs.Reading.{AnswersList};

use ov_base::{Memory, Name, Names, Users};
use ov_fields::known_names;
use ov_state::Catalogue;
use ov_wire::Answer;
use std::alloc::Global;

/// Appends the name of a user who is in the set, behind those of the users before.
fn put_name(state: &Catalogue, user: u32, set: &Users, names: &mut Names) -> Result<(), Memory>
    requires user { user < length state.now.catalogue.users }
    requires distinct { AreDistinct state.now.catalogue.users }
    requires before { names.old ≡ names_in set.now (take user state.now.catalogue.users) }
    ensures { let users = state.now.catalogue.users in
        OnOk result (names.new ≡ names_in set.now (take (user + 1) users)) }
{
    let Some(name) = state.user_at(user) else {
        unreachable!()
    };
    if set.contains(user) {
        names.insert(name.copy())?;
    }
    Ok(())
}

/// The names of the users in a set, in the order of their numbers.
fn names_of(alloc: Global, state: &Catalogue, set: &Users) -> Result<Names, Memory>
    requires { AreDistinct state.now.catalogue.users }
    ensures { IfOk result (λ names. names ≡ names_in set.now state.now.catalogue.users) }
{
    let mut names = Names::new(alloc);
    for user in 0..state.sizes().users {
        put_name(state, user, set, &mut names)?;
    }
    Ok(names)
}

/// The answer to a List.
pub fn answer_list(alloc: Global, state: &Catalogue, file: &Name) -> Result<Answer, Memory>
    requires { AreDistinct state.now.catalogue.users }
    ensures answer { let c = state.now.catalogue in
        IfOk result (AnswersList c (file_named c file.now)) }
    ensures form { IfOk result HasAnswerForm }
{
    state.known();
    match state.list(file) {
        Ok(list) => {
            let names = names_of(alloc, state, &list)?;
            known_names(&names);
            Ok(Answer::Listed { names })
        }
        Err(refusal) => Ok(Answer::Refused { refusal }),
    }
}
