//! Bytes on the heap.

use ov_base::Octets;
use std::test::Fail;

#[test]
fn a_copy_has_the_bytes(rt: HostRuntime) -> Result<(), Fail> {
    for bytes in [b"".as_slice(), b"hello", &[0, 255, 10]] {
        let copy = Octets::copy(rt.alloc(), bytes)?;
        assert_eq!(rt; copy.as_slice(), bytes);
        assert_eq!(rt; Octets::from_vec(copy.into_vec()).as_slice(), bytes);
    }
    assert_eq!(rt; Octets::new(rt.alloc()).as_slice(), b"".as_slice());
    Ok(())
}
