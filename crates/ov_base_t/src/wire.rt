//! The answer to bytes that are no request, which is none to any request.

use ov_wire::{Answer, write_answer};
use std::test::Fail;

#[test]
fn a_bad_request_is_answered(rt: HostRuntime) -> Result<(), Fail> {
    let mut out = Vec::new(rt.alloc());
    write_answer(&Answer::BadRequest { at: 258 }, &mut out)?;
    assert_eq!(rt; out.as_slice(), b"\x8b\0\0\x01\x02".as_slice());
    Ok(())
}
