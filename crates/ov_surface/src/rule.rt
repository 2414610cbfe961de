//! Which files have a surface layer.
ghost use Rattle.std.specs.Prelude.{◌≡◌};
ghost use Rattle.ov_surface.specs.Wanted.{wanted_surface};

use ov_base::{Mode, UserSet};

/// The set of users that the surface of a file should have, from its list and from those who hold
/// its base node. In `Full` it is the list. In `Delta` it is the list too, but there is none where
/// the two are equal. It takes no memory.
pub fn wanted<const W: usize>(
    mode: Mode,
    list: &UserSet<W>,
    holders: &UserSet<W>,
) -> Option<UserSet<W>>
    ensures { result ≡ wanted_surface mode list.now holders.now }
{
    match mode {
        Mode::Delta if list == holders => None,
        Mode::Full | Mode::Delta => Some(list.copy()),
    }
}
