//! Callers that the laws serve: each is proved by a call of one, with no proof of its own.

ghost use Rattle.std.specs.Prelude.{◌≡◌, ◌≤◌, ◌+◌, length};
ghost use Rattle.ov_ctr.specs.Ctr.{xor_pad};

use ov_ctr::{apply_at, takes_parts, undoes_itself};

/// Adds the pad to a whole file and takes it away again.
pub fn apply_twice(key: &[u8; 32], tag: u8, file: u32, whole: &mut [u8])
    requires { length whole.old ≤ 4294967296 }
    ensures { whole.new ≡ whole.old }
{
    apply_at(key, tag, file, 0, whole);
    apply_at(key, tag, file, 0, whole);
    undoes_itself();
}

/// Adds the pad to a whole file in two parts, the second from the place `cut` on.
pub fn apply_in_two(key: &[u8; 32], tag: u8, file: u32, cut: usize, whole: &mut [u8])
    requires small { length whole.old ≤ 4294967296 }
    requires within { cut ≤ length whole.old }
    ensures { whole.new ≡ xor_pad key.now tag file 0 whole.old }
{
    let (front, back) = whole.split_at_mut(cut);
    apply_at(key, tag, file, 0, front);
    apply_at(key, tag, file, cut as u64, back);
    takes_parts();
}
