//! Copies of lists of names.
ghost use Rattle.std.specs.Prelude.{◌≡◌, IfOk};
ghost use Rattle.ov_base.specs.NameLists.{AreDistinct};

use ov_base::{Memory, Name, Names};
use std::alloc::Global;

/// A list of the same names.
pub fn copy_names(alloc: Global, names: &Names) -> Result<Names, Memory>
    ensures { IfOk result (λ copy. copy ≡ names.now) }
{
    copy_each(alloc, names.as_slice())
}

/// The list of these names.
fn copy_each(alloc: Global, names: &[Name]) -> Result<Names, Memory>
    requires { AreDistinct names.now }
    ensures { IfOk result (λ copy. copy ≡ names.now) }
{
    let mut copy = Names::new(alloc);
    for name in names {
        copy.insert(name.copy())?;
    }
    Ok(copy)
}
