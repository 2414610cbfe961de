//! Sets of users as fields.

ghost use Rattle.std.specs.Prelude.{◌≡◌, ◌≤◌, ◌*◌, ◌++◌, OnOk};
ghost use Rattle.ov_base.specs.Sets.{bytes_of};
ghost use Rattle.ov_base.specs.declared.limits.TheConstants.{MAX_SET_WORDS};
ghost use Rattle.ov_fields.specs.Answers.{GivesField};
ghost use Rattle.ov_fields.specs.Reading.{set_at};

use crate::FieldFault;
use crate::reading::take_bytes;
use ov_base::{Memory, UserSet};

/// A set of users below `64 * W`.
pub fn take_set<const W: usize>(bytes: &[u8]) -> Result<(UserSet<W>, &[u8]), FieldFault>
    requires { (1 ≤ W) × (W ≤ MAX_SET_WORDS) }
    ensures { GivesField (λ s. s) result (set_at (8 * W) bytes.now) }
{
    let (text, rest) = take_bytes(8 * W, bytes)?;
    match UserSet::read(text) {
        Some(set) => Ok((set, rest)),
        None => unreachable!(),
    }
}

/// Appends a set of users.
pub fn put_set<const W: usize>(set: &UserSet<W>, out: &mut Vec<u8>) -> Result<(), Memory>
    requires { (1 ≤ W) × (W ≤ MAX_SET_WORDS) }
    ensures { OnOk result (out.new.items ≡ out.old.items ++ bytes_of (8 * W) set.now) }
{
    let mut bytes = vec![in *out.allocator(); 0; 8 * W]?;
    set.write(&mut bytes);
    out.extend_from_slice(&bytes)?;
    Ok(())
}
