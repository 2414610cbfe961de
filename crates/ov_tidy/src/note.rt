//! What is noted of a file: the update with which the next one may be an idle pair.
ghost use Rattle.std.specs.Prelude.{◌≡◌};
ghost use Rattle.ov_thinning.specs.Notes.{differ};

/// The last update that named a file, where it was kept, is a grant or a revocation, and published
/// nothing.
#[derive(Clone, Copy, Debug, PartialEq, Eq)]
pub(crate) struct Last {
    /// Its place among the updates.
    pub place: u32,
    /// Its user.
    pub user: u32,
    /// Whether it is a grant.
    pub grants: bool,
    /// Whether the list of the file before it was among the surface sets before it.
    pub before: bool,
    /// Whether the list after it was among them.
    pub after: bool,
}

/// Whether one of the two is a grant and the other a revocation.
pub(crate) fn differ(one: bool, other: bool) -> bool
    ensures { result ≡ differ one other }
{
    if one { !other } else { other }
}
