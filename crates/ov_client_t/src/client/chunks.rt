//! A file of more than one chunk, whose surface changes while it is read, or which is removed or
//! replaced.

use super::long_vectors::*;
use super::*;
use ov_io::MemSink;
use ov_peer::Traced;
use ov_surface::{base_encrypt, over_encrypt};
use sha2::{Digest, Sha256};
use std::process::Abort;

/// The bytes of the file: byte number i is 7 times i, modulo 251.
fn text(alloc: Global) -> Result<Vec<u8>, Fail> {
    let mut text = Vec::with_capacity(alloc, LENGTH)?;
    for i in 0..LENGTH {
        text.push((i * 7 % 251) as u8)?;
    }
    Ok(text)
}

/// The stored bytes of the file, under the key of a surface node.
fn stored(alloc: Global, surface: &Key) -> Result<Vec<u8>, Fail> {
    let mut bytes = text(alloc)?;
    if bytes.len() == LENGTH {
        base_encrypt(&Key { bytes: ACCESS_KEY }, 0, 0, &mut bytes);
    }
    if bytes.len() == LENGTH {
        over_encrypt(surface, 0, 0, &mut bytes);
    }
    Ok(bytes)
}

/// The reply that gives these bytes.
fn bytes_reply(alloc: Global, bytes: &[u8]) -> Result<Octets, Fail> {
    let mut reply = vec![in alloc; 0x86; 1]?;
    reply.extend_from_slice(bytes)?;
    Ok(Octets::from_vec(reply))
}

/// The replies that the file's chunks are in, up to this many.
fn put_chunks(
    alloc: Global,
    surface: &Key,
    count: usize,
    replies: &mut Vec<Octets>,
) -> Result<(), Fail> {
    let bytes = stored(alloc, surface)?;
    for chunk in bytes.chunks(65_536).take(count) {
        replies.push(bytes_reply(alloc, chunk)?)?;
    }
    Ok(())
}

/// Two chunks of the file as it was.
fn first_replies(alloc: Global) -> Result<Vec<Octets>, Fail> {
    let mut replies = Vec::new(alloc);
    replies.push(Octets::copy(alloc, &CHAINED)?)?;
    put_chunks(
        alloc,
        &Key {
            bytes: SURFACE_KEY_A,
        },
        2,
        &mut replies,
    )?;
    Ok(replies)
}

/// Two chunks of the file as it was, and all of it as it is after its surface changed.
fn replies(alloc: Global) -> Result<Vec<Octets>, Fail> {
    let mut replies = first_replies(alloc)?;
    replies.push(Octets::copy(alloc, &MOVED)?)?;
    replies.push(Octets::copy(alloc, &CHAINED_AGAIN)?)?;
    put_chunks(
        alloc,
        &Key {
            bytes: SURFACE_KEY_AGAIN,
        },
        4,
        &mut replies,
    )?;
    Ok(replies)
}

#[test]
fn a_file_that_moved_before_its_third_chunk(rt: HostRuntime) -> Result<(), Fail> {
    let alloc = rt.alloc();
    let replies = replies(alloc)?;
    assert_eq!(rt; replies.len(), 9);
    let peer = FixedPeer::new(replies, Octets::new(alloc));
    let mut traced = Traced::new(peer, MemSink::new(alloc, Octets::new(alloc)));
    let mut into = Vec::new(alloc);
    let result = reader_a()?.read(alloc, &mut traced, &name(b"f")?, &mut into);
    assert_eq!(rt; result, Ok(()));
    assert_eq!(rt; into.len(), LENGTH);
    assert_eq!(rt;
        Sha256::digest(into.as_slice()).as_slice(),
        TEXT_SHA256.as_slice()
    );
    // The nine requests and the replies, each behind its length field.
    let (_, sink) = traced.into_parts();
    assert_eq!(rt; sink.written().len(), 331_445);
    assert_eq!(rt;
        Sha256::digest(sink.written()).as_slice(),
        TRACE_SHA256.as_slice()
    );
    Ok(())
}

/// What a reads of f over these replies, behind one byte that was there before, and all frames.
fn read_traced(
    alloc: Global,
    replies: Vec<Octets>,
) -> Result<(Result<(), ClientFault>, Vec<u8>, MemSink), Fail> {
    let peer = FixedPeer::new(replies, Octets::new(alloc));
    let mut traced = Traced::new(peer, MemSink::new(alloc, Octets::new(alloc)));
    let mut into = vec![in alloc; b'>'; 1]?;
    let result = reader_a()?.read(alloc, &mut traced, &name(b"f")?, &mut into);
    let (_, sink) = traced.into_parts();
    Ok((result, into, sink))
}

#[test]
fn a_file_that_is_removed_before_its_third_chunk(rt: HostRuntime) -> Result<(), Fail> {
    let alloc = rt.alloc();
    let mut replies = first_replies(alloc)?;
    replies.push(Octets::copy(alloc, &GONE)?)?;
    replies.push(Octets::copy(alloc, &GONE)?)?;
    let (result, into, sink) = read_traced(alloc, replies)?;
    let refused = ClientFault::Refused(ov_base::Refusal::NoFile);
    assert_eq!(rt; result, Err(refused));
    assert_eq!(rt; into.as_slice(), b">".as_slice());
    // Five requests, the last of which is for the chains again.
    assert_eq!(rt; sink.written().len(), 131_241);
    assert_eq!(rt;
        Sha256::digest(sink.written()).as_slice(),
        GONE_TRACE_SHA256.as_slice()
    );
    Ok(())
}

/// Makes sure that a read of f, which is gone at its third chunk, gives the ten bytes of the file
/// that has its name then, by these chains, and that its frames have this digest.
fn expect_ten_bytes(
    rt: &impl Abort,
    alloc: Global,
    chained: &[u8],
    digest: &[u8],
) -> Result<(), Fail> {
    let mut replies = first_replies(alloc)?;
    replies.push(Octets::copy(alloc, &GONE)?)?;
    replies.push(Octets::copy(alloc, chained)?)?;
    replies.push(Octets::copy(alloc, &BYTES_NEW)?)?;
    let (result, into, sink) = read_traced(alloc, replies)?;
    assert_eq!(rt; result, Ok(()));
    assert_eq!(rt; into.as_slice(), b">ten bytes!".as_slice());
    // Six requests.
    assert_eq!(rt; sink.written().len(), 131_337);
    assert_eq!(rt; Sha256::digest(sink.written()).as_slice(), digest);
    Ok(())
}

#[test]
fn a_file_that_is_made_again_before_its_third_chunk(rt: HostRuntime) -> Result<(), Fail> {
    expect_ten_bytes(&rt, rt.alloc(), &CHAINED_NEW, &NEW_TRACE_SHA256)
}

#[test]
fn a_file_that_is_replaced_before_its_third_chunk(rt: HostRuntime) -> Result<(), Fail> {
    expect_ten_bytes(&rt, rt.alloc(), &CHAINED_REPLACED, &REPLACED_TRACE_SHA256)
}
