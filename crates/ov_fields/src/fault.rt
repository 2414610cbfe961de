//! Why a field can't be read.

ghost use Rattle.std.specs.Prelude.{◌≡◌};
ghost use Rattle.ov_fields.specs.declared.fault.FieldFault.TheVariants.{Memory};

use ov_base as base;
use std::alloc::{AllocError, AllocFailed};

/// Why a field can't be read.
#[derive(Clone, Copy, Debug, PartialEq, Eq)]
pub enum FieldFault {
    /// The bytes are no such field: this many are left at the first one that is wrong, its own
    /// included, and none where they end too early.
    Bad { left: usize },
    /// Memory was refused.
    Memory,
}

impl From<AllocError> for FieldFault {
    ghost from_gives = { λ _ e. e ≡ Memory };

    fn from(_: AllocError) -> Self {
        FieldFault::Memory
    }
}

impl<T: Drop> From<AllocFailed<T>> for FieldFault {
    ghost from_gives = { λ _ e. e ≡ Memory };

    fn from(_: AllocFailed<T>) -> Self {
        FieldFault::Memory
    }
}

impl From<base::Memory> for FieldFault {
    ghost from_gives = { λ _ e. e ≡ Memory };

    fn from(_: base::Memory) -> Self {
        FieldFault::Memory
    }
}
