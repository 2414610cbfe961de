//! The calls of a disk in memory that are made to fail.
ghost use Rattle.std.specs.Prelude.{◌≡◌, take};
ghost use Rattle.ov_disk.specs.Tape.{keep_at};

/// A call that fails: its number, and how many bytes a write puts before it does.
#[derive(Clone, Copy, Debug, PartialEq, Eq)]
pub struct Failure {
    pub call: u64,
    pub keep: u64,
}

/// How many bytes a write puts before it fails, or none where the call of this number doesn't fail.
pub fn keep_at(fails: &[Failure], call: u64) -> Option<u64>
    ensures { result ≡ keep_at fails.now call }
{
    fails.iter().find(|f| f.call == call).map(|f| f.keep)
}

/// The first bytes, as many as this, or all where there are fewer.
pub fn front(bytes: &[u8], keep: u64) -> &[u8]
    ensures { result.now ≡ take keep bytes.now }
{
    &bytes[..bytes.len().min(keep as usize)]
}
