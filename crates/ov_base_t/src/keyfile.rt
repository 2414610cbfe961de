//! A key file whose source fails.

use ov_base::Octets;
use ov_io::MemSource;
use ov_keyfile::*;
use std::test::Fail;

const LOW: &[u8] = b"000102030405060708090a0b0c0d0e0f101112131415161718191a1b1c1d1e1f";

#[test]
fn a_failed_read_is_a_fault(rt: HostRuntime) -> Result<(), Fail> {
    let bytes = Octets::copy(rt.alloc(), LOW)?;
    let mut source = MemSource::new(bytes, 7, Octets::copy(rt.alloc(), &[3])?);
    assert!(rt; read_masters(&mut source).is_err());
    Ok(())
}
