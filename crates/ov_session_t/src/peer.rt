//! What a peer behind a stream in memory keeps of a reply that doesn't come.
use crate::memory::stream;
use ov_peer::{Peer, PeerFault};
use ov_session::NetPeer;
use std::test::Fail;

#[test]
fn an_announced_length_takes_no_memory(rt: HostRuntime) -> Result<(), Fail> {
    let alloc = rt.alloc();
    let mut input = [7; 10_004];
    input[..4].copy_from_slice(&[0, 0x10, 0, 0]);
    // How many bytes come behind the length field, and how many of them are kept, by whole pieces.
    for (come, kept) in [
        (0usize, 0usize),
        (1, 0),
        (8_191, 0),
        (8_192, 8_192),
        (10_000, 8_192),
    ] {
        let mut peer = NetPeer::new(stream(alloc, &input[..4 + come], 4_000, &[], &[])?)?;
        let mut reply = Vec::new(alloc);
        assert_eq!(rt; peer.ask(&[1], &mut reply), Err(PeerFault::Link));
        assert_eq!(rt; reply.len(), kept);
        assert!(rt; reply.capacity() <= 16_384);
    }
    Ok(())
}
