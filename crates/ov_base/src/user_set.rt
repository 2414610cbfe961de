//! Sets of users.
ghost use Rattle.std.specs.Prelude.{◌≡◌, ◌<◌, ◌≤◌, ◌*◌, ◌==◌, ◌↔◌, ℕ, false, length, true, IsSome, IfSome};
ghost use Rattle.std.specs.Cmp.{nat_eq_equiv, partial_equiv_from_equiv};
ghost use Rattle.ov_base.specs.declared.limits.TheConstants.{MAX_SET_WORDS};
ghost use Rattle.ov_base.specs.Sets.{empty, has, with, without, within, meets, union, size, IsBelow};
ghost use Rattle.ov_base.specs.Sets.{bytes_cmp, bytes_of, set_cmp, set_of_bytes};
ghost use Rattle.ov_base.specs.Words.{set_of_words};

mod words;

use crate::limits::SET_WORDS;
use std::cmp::Ordering;
use std::marker::Model;

/// A set of users, who are numbers below `64 * W`, for a W from 1 to 1,024.
///
/// A contract sees a set as its members and knows nothing of W, so sets of two widths with the same
/// members are one set. A set is kept in place: no call takes memory.
#[derive(Drop)]
pub struct UserSet<const W: usize> {
    words: [u64; W],
}

/// Sets of users of a store.
pub type Users = UserSet<SET_WORDS>;

impl<const W: usize> Model for UserSet<W> {
    ghost Value = { ℕ };

    ghost view = { λ s. set_of_words s.words };

    ghost invariant = { λ s. (1 ≤ length s.words) × (length s.words ≤ MAX_SET_WORDS) };
}

impl<const W: usize> UserSet<W> {
    /// The set without members.
    pub fn empty() -> Self
        requires { (1 ≤ W) × (W ≤ MAX_SET_WORDS) }
        ensures { result ≡ empty }
    {
        UserSet { words: [0; W] }
    }

    /// An equal set.
    pub fn copy(&self) -> Self
        ensures { result ≡ self.now }
    {
        UserSet { words: self.words }
    }

    /// The same set, in a width that holds more users.
    pub fn widen<const V: usize>(&self) -> UserSet<V>
        requires { (W ≤ V) × (V ≤ MAX_SET_WORDS) }
        ensures { result ≡ self.now }
    {
        UserSet {
            words: words::widen(&self.words),
        }
    }

    /// Whether the user is in the set; no user of `64 * W` or more is.
    pub fn contains(&self, user: u32) -> bool
        ensures member { result ≡ has self.now user }
        ensures limit { IsBelow (64 * W) self.now }
    {
        words::has(&self.words, user)
    }

    /// The set with this user added.
    pub fn with(&self, user: u32) -> Self
        requires { user < 64 * W }
        ensures { result ≡ with self.now user }
    {
        UserSet {
            words: words::with(&self.words, user),
        }
    }

    /// The set with this user taken out.
    pub fn without(&self, user: u32) -> Self
        requires { user < 64 * W }
        ensures { result ≡ without self.now user }
    {
        UserSet {
            words: words::without(&self.words, user),
        }
    }

    /// The users of this set and of the other.
    pub fn union(&self, other: &Self) -> Self
        ensures { result ≡ union self.now other.now }
    {
        let mut words = self.words;
        words::unite(&mut words, &other.words);
        UserSet { words }
    }

    /// Whether each user of this set is in the other.
    pub fn within(&self, other: &Self) -> bool
        ensures { result ≡ within self.now other.now }
    {
        words::are_within(&self.words, &other.words)
    }

    /// Whether some user is in both sets.
    pub fn meets(&self, other: &Self) -> bool
        ensures { result ≡ meets self.now other.now }
    {
        words::do_meet(&self.words, &other.words)
    }

    /// Whether each user of the set has a number below the limit.
    pub fn is_below(&self, limit: u32) -> bool
        ensures below { result ≡ true → IsBelow limit self.now }
        ensures past { result ≡ false → IsBelow limit self.now → ⊥ }
    {
        words::are_below(&self.words, limit)
    }

    /// The order of the bytes that `write` gives: the first that differs decides.
    pub fn cmp_bytes(&self, other: &Self) -> Ordering
        ensures bytes { result ≡ bytes_cmp (8 * W) self.now other.now }
        ensures order { result ≡ set_cmp self.now other.now }
    {
        words::order(&self.words, &other.words)
    }

    /// How many users are in the set.
    pub fn count(&self) -> u32
        ensures size { result ≡ size self.now }
        ensures limit { result ≤ 64 * W }
        ensures width { (1 ≤ W) × (W ≤ MAX_SET_WORDS) }
    {
        words::count(&self.words)
    }

    /// Writes the set as `8 * W` bytes, each with eight users: user 0 is the lowest bit of the
    /// first byte, user 8 that of the second.
    pub fn write(&self, out: &mut [u8])
        requires { length out.old ≡ 8 * W }
        ensures bytes { out.new ≡ bytes_of (8 * W) self.now }
        ensures whole { set_of_bytes out.new ≡ self.now }
    {
        words::write(&self.words, out);
    }

    /// The set that is written so.
    pub fn read(bytes: &[u8]) -> Option<Self>
        requires { (1 ≤ W) × (W ≤ MAX_SET_WORDS) }
        ensures found { IsSome result ↔ (length bytes.now ≡ 8 * W) }
        ensures set { IfSome result (λ set. set ≡ set_of_bytes bytes.now) }
        ensures bytes { IfSome result (λ set. bytes_of (8 * W) set ≡ bytes.now) }
    {
        if bytes.len() != 8 * W {
            return None;
        }
        let mut words = [0; W];
        words::read(bytes, &mut words);
        Some(UserSet { words })
    }
}

impl<const W: usize> PartialEq for UserSet<W> {
    ghost eq = { ◌==◌ };

    ghost laws = { partial_equiv_from_equiv nat_eq_equiv };

    fn eq(&self, other: &Self) -> bool {
        words::are_same(&self.words, &other.words)
    }
}
