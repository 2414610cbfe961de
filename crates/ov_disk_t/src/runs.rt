//! Bytes of Blobs as runs of one byte each.
use std::process::Abort;

/// Makes sure of so many bytes, all of which are this one, and then of others.
pub fn expect_runs(rt: &impl Abort, blobs: &[u8], runs: &[(usize, u8)]) {
    let mut rest = blobs;
    for (count, byte) in runs {
        assert!(rt; *count <= rest.len(), "{runs:?}");
        let (run, behind) = rest.split_at(*count);
        assert!(rt; run.iter().all(|b| *b == *byte), "{runs:?}");
        rest = behind;
    }
    assert!(rt; rest.is_empty(), "{runs:?}");
}
