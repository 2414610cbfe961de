//! Changes that an owner is to make.
ghost use Rattle.std.specs.Prelude.{◌≡◌, ℕ, List, IfOk};
ghost use Rattle.ov_wire.specs.Requests.{HasRequestLimits};
ghost use Rattle.ov_owner.specs.Changes.{HasChangeLimits, errand_of};

use crate::names::copy_names;
use ov_base::{Memory, Name, Names};
use ov_wire::{Question, Request};
use std::alloc::Global;

/// A change that an owner is to make, by names.
#[derive(Drop)]
pub enum Change<'a> {
    /// To enrol this user.
    Enrol {
        user: &'a Name,
    },
    /// To create a file of these bytes for the users of the list.
    Create {
        file: &'a Name,
        list: &'a Names,
        bytes: &'a [u8],
    },
    /// To put the user onto the file's list.
    Grant {
        user: &'a Name,
        file: &'a Name,
    },
    /// To take the user off the file's list.
    Revoke {
        user: &'a Name,
        file: &'a Name,
    },
    /// To take the file away.
    Remove {
        file: &'a Name,
    },
    /// To put a file of these bytes in the file's place, for the users of its list.
    Replace {
        file: &'a Name,
        bytes: &'a [u8],
    },
}

/// What is asked first.
pub fn first_request(alloc: Global, change: &Change<'_>) -> Result<Request, Memory>
    requires { HasChangeLimits change.now }
    ensures request { IfOk result (λ request.
        (base : List ℕ) → request ≡ (errand_of base change.now).first) }
    ensures limits { IfOk result HasRequestLimits }
{
    match change {
        Change::Enrol { user } => Ok(Request::Ask {
            question: Question::Enrol { user: user.copy() },
        }),
        Change::Create { file, list, bytes } => Ok(Request::Cover {
            file: file.copy(),
            length: bytes.len() as u32,
            names: copy_names(alloc, list)?,
        }),
        Change::Grant { user, file } => Ok(Request::Ask {
            question: Question::Grant {
                user: user.copy(),
                file: file.copy(),
            },
        }),
        Change::Revoke { user, file } => Ok(Request::Ask {
            question: Question::Revoke {
                user: user.copy(),
                file: file.copy(),
            },
        }),
        Change::Remove { file } => Ok(Request::Ask {
            question: Question::Remove { file: file.copy() },
        }),
        Change::Replace { file, bytes } => Ok(Request::Replan {
            file: file.copy(),
            length: bytes.len() as u32,
        }),
    }
}
