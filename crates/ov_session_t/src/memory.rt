//! Streams in memory.
ghost use Rattle.std.specs.Prelude.{◌<◌};

use ov_base::Octets;
use ov_io::{MemSink, MemSource, MemStream};
use std::alloc::Global;
use std::test::Fail;

/// A stream with these bytes to read, which gives pieces, and fails the calls with these numbers.
pub fn stream(
    alloc: Global,
    bytes: &[u8],
    piece: usize,
    read: &[u8],
    write: &[u8],
) -> Result<MemStream, Fail>
    requires { 0 < piece }
{
    let bytes = Octets::copy(alloc, bytes)?;
    Ok(MemStream {
        source: MemSource::new(bytes, piece, Octets::copy(alloc, read)?),
        sink: MemSink::new(alloc, Octets::copy(alloc, write)?),
    })
}
