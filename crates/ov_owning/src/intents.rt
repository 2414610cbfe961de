//! The intent that an act by the book is, with the bytes that it stores.
ghost use Rattle.std.specs.Prelude.{◌≡◌, ◌⊎◌, ◌<◌, IfOk, IfSome, length};
ghost use Rattle.ov_acts.specs.Causes.{StopsFor, TakesUpTo, most_bytes};
ghost use Rattle.ov_base.specs.Causes.{Rose};
ghost use Rattle.ov_base.specs.declared.limits.TheConstants.{MAX_FILE_BYTES};
ghost use Rattle.ov_book.specs.Planning.{IsWithinFile};
ghost use Rattle.ov_owning.specs.Intents.{FindsIntent, StoresFile};

use crate::job::OwnAct;
use ov_acts::{Stop, bytes_of};
use ov_book::Intent;
use ov_io::Source;
use std::alloc::Global;

/// The intent of an act, where it has one. It reads the bytes that the act stores.
pub fn intent_of<B: Source>(
    alloc: Global,
    act: OwnAct,
    body: &mut B,
) -> Result<Option<Intent>, Stop>
    ensures found { FindsIntent act (B.tells.left body.old) result }
    ensures within { IfOk result (λ found. IfSome found IsWithinFile) }
    ensures cause { StopsFor (Rose (B.tells.faults body.old) (B.tells.faults body.new)) ⊥ ⊥
        (StoresFile act × IfSome (B.tells.left body.old) (λ bytes. MAX_FILE_BYTES < length bytes))
        result }
    ensures takes { (body.new ≡ body.old)
        ⊎ (StoresFile act × TakesUpTo B.tells most_bytes body.old body.new) }
{
    match act {
        OwnAct::Enrol { user } => Ok(Some(Intent::Enrol { name: user })),
        OwnAct::Grant { user, file } => Ok(Some(Intent::Grant { user, file })),
        OwnAct::Revoke { user, file } => Ok(Some(Intent::Revoke { user, file })),
        OwnAct::Remove { file } => Ok(Some(Intent::Remove { file })),
        OwnAct::Create { file, list } => match bytes_of(alloc, body) {
            Ok(bytes) => Ok(Some(Intent::Create {
                name: file,
                list,
                bytes,
            })),
            Err(stop) => Err(stop),
        },
        OwnAct::Replace { file } => match bytes_of(alloc, body) {
            Ok(bytes) => Ok(Some(Intent::Replace { file, bytes })),
            Err(stop) => Err(stop),
        },
        OwnAct::Resume => Ok(None),
    }
}
