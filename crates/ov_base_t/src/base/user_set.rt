//! Sets of users, and their bytes.

ghost use Rattle.std.specs.Prelude.{◌≡◌, ◌≤◌, ◌*◌, ◌<◌, length};
ghost use Rattle.ov_base.specs.declared.limits.TheConstants.{MAX_SET_WORDS};

use ov_base::UserSet;
use std::process::Abort;

/// Makes sure of a set of the first user alone, and of one with the last user too.
fn expect_users<const W: usize>(
    rt: &impl Abort,
    first_only: &UserSet<W>,
    both: &UserSet<W>,
    last: u32,
)
    requires last { last < 64 * W }
    requires width { W ≤ MAX_SET_WORDS }
{
    assert!(rt; both.contains(0) && both.contains(last));
    assert!(rt; !both.contains(1) && !both.contains(last + 1) && !both.contains(u32::MAX));
    assert!(rt; first_only.within(both) && !both.within(first_only));
    assert!(rt; both.without(last) == *first_only);
    assert!(rt; both.copy() == first_only.union(both) && *both != *first_only);
    assert_eq!(rt; both.count(), 2);
}

/// The first and the last user of a width, and the bytes of the two.
fn ends_of_a_width<const W: usize>(rt: &impl Abort, bytes: &mut [u8])
    requires width { (1 ≤ W) × (W ≤ MAX_SET_WORDS) }
    requires bytes { length bytes.old ≡ 8 * W }
{
    let last = (64 * W - 1) as u32;
    let first_only = UserSet::<W>::empty().with(0);
    let both = first_only.with(last);
    expect_users(rt, &first_only, &both, last);
    both.write(bytes);
    assert_eq!(rt; bytes[0], 1);
    assert_eq!(rt; bytes[8 * W - 1], 0x80);
    assert!(rt; UserSet::<W>::read(bytes) == Some(both));
    assert!(rt; UserSet::<W>::read(&bytes[1..]).is_none());
}

#[test]
fn ends_of_each_width(rt: HostRuntime) {
    ends_of_a_width::<1>(&rt, &mut [0; 8]);
    ends_of_a_width::<4>(&rt, &mut [0; 32]);
    ends_of_a_width::<16>(&rt, &mut [0; 128]);
}

#[test]
fn users_as_bits_of_bytes(rt: HostRuntime) {
    let set = UserSet::<4>::empty().with(9).with(17).with(63).with(64);
    let mut bytes = [0; 32];
    set.write(&mut bytes);
    assert_eq!(rt;
        &bytes[..9],
        [0, 0b10, 0b10, 0, 0, 0, 0, 0x80, 1].as_slice()
    );
}

#[test]
fn a_set_in_a_greater_width(rt: HostRuntime) {
    let set = UserSet::<4>::empty().with(0).with(63).with(255);
    let wide = set.widen::<16>();
    assert!(rt; wide.contains(0) && wide.contains(63) && wide.contains(255));
    assert_eq!(rt; wide.count(), 3);
    assert!(rt; wide.with(1_023).contains(1_023) && set.widen() == set);
    let mut bytes = [0xff; 128];
    wide.write(&mut bytes);
    assert_eq!(rt; (bytes[0], bytes[7], bytes[31]), (1, 0x80, 0x80));
    for i in 0..128_usize {
        assert!(rt; i == 0 || i == 7 || i == 31 || bytes[i] == 0);
    }
}

#[test]
fn sets_in_the_order_of_their_bytes(rt: HostRuntime) {
    let eight = UserSet::<4>::empty().with(8);
    let zero = UserSet::<4>::empty().with(0);
    assert!(rt; eight.cmp_bytes(&zero).is_lt() && zero.cmp_bytes(&eight).is_gt());
    assert!(rt; eight.cmp_bytes(&eight.copy()).is_eq());
}
