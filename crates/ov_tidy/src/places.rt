//! The places that are kept, in order.
ghost use Rattle.std.specs.Prelude.{◌≡◌, ◌≤◌, ◌-◌, ◌+◌, OnOk, vec_capacity, vec_len};
ghost use Rattle.ov_thinning.specs.Thin.{left_out};
ghost use Rattle.ov_tidy.specs.Thins.{AreInOrder, kept_by};

use crate::note::Last;
use ov_base::Memory;

/// Makes room for one more place and for one more note.
pub(crate) fn make_room(kept: &mut Vec<u32>, notes: &mut Vec<Option<Last>>) -> Result<(), Memory>
    ensures kept { kept.new.items ≡ kept.old.items }
    ensures notes { notes.new.items ≡ notes.old.items }
    ensures places { OnOk result (1 ≤ vec_capacity kept.new - vec_len kept.new) }
    ensures room { OnOk result (1 ≤ vec_capacity notes.new - vec_len notes.new) }
{
    kept.reserve(1)?;
    notes.reserve(1)?;
    Ok(())
}

// Leaves this place out. It is found by halves.
fn leave_out(kept: &mut Vec<u32>, place: u32, limit: u32)
    requires { AreInOrder 0 limit kept.old.items }
    ensures { kept.new.items ≡ left_out place kept.old.items }
{
    match kept.binary_search(&place) {
        Ok(at) => {
            let _ = kept.remove(at);
        }
        Err(_) => {}
    }
}

/// Keeps the place, which is behind all others, or leaves out that of the first of the pair.
pub(crate) fn keep(kept: &mut Vec<u32>, pair: Option<u32>, place: u32)
    requires room { 1 ≤ vec_capacity kept.old - vec_len kept.old }
    requires order { AreInOrder 0 place kept.old.items }
    ensures kept { kept.new.items ≡ kept_by pair kept.old.items place }
    ensures order { AreInOrder 0 (place + 1) kept.new.items }
{
    match pair {
        Some(first) => leave_out(kept, first, place),
        None => {
            let _ = kept.push(place);
        }
    }
}
