//! Key files.
use crate::texts::put_bytes;
use ov_base::Octets;
use ov_io::{MemSource, Source};
use ov_keyfile::{Masters, read_masters};
use std::test::Fail;

// What is read of a source without faults.
fn read_of<S: Source>(source: &mut S) -> Result<Option<Masters>, Fail> {
    match read_masters(source) {
        Ok(masters) => Ok(masters),
        Err(_) => Err(Fail::from("a fault")),
    }
}

/// Prints the masters of a key file that comes in pieces of seven bytes.
pub fn tell_keys(rt: &HostRuntime, text: &[u8]) -> Result<(), Fail> {
    let file = Octets::copy(rt.alloc(), text)?;
    let mut source = MemSource::new(file, 7, Octets::new(rt.alloc()));
    let mut line = String::new(rt.alloc());
    match read_of(&mut source)? {
        Some(masters) => {
            put_bytes(&mut line, &masters.base.bytes)?;
            put_bytes(&mut line, &masters.surface.bytes)?;
        }
        None => line.push_str(" none")?,
    }
    println!(rt; "keys{line}")?;
    Ok(())
}
