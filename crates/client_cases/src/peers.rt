//! Peers that give the replies of a case, and keep all frames.
use crate::case::Case;
use crate::texts::shown;
use ov_base::Octets;
use ov_io::MemSink;
use ov_peer::{FixedPeer, Traced};
use std::alloc::Global;
use std::test::Fail;

/// Such a peer.
pub type Replying = Traced<FixedPeer, MemSink>;

/// A peer that gives the case's replies in turn.
pub fn peer_of(alloc: Global, case: &Case) -> Result<Replying, Fail> {
    let mut replies = Vec::new(alloc);
    for reply in &case.replies {
        replies.push(Octets::copy(alloc, reply.as_slice())?)?;
    }
    let fails = Octets::copy(alloc, &case.failing_asks)?;
    let peer = FixedPeer::new(replies, fails);
    Ok(Traced::new(peer, MemSink::new(alloc, Octets::new(alloc))))
}

/// Prints what came of a line, and all frames that were asked and answered for it.
pub fn print_came(rt: &HostRuntime, line: &str, came: &str, peer: &Replying) -> Result<(), Fail> {
    let frames = shown(rt.alloc(), peer.sink.written())?;
    println!(rt; "{line}: {came}\n  frames {frames}")?;
    Ok(())
}
