//! A door and a peer over a port of this machine.
use ov_io::{Fault, Sink, Source};
use ov_peer::{Peer, PeerFault};
use ov_session::{Door, NetPeer, SILENCE_SECONDS, SessionEnd, TcpDoor, TcpLink};
use std::io::ErrorKind;
use std::str;
use std::test::Fail;

#[test]
fn over_a_port(rt: HostRuntime) -> Result<(), Fail> {
    let alloc = rt.alloc();
    let mut door = TcpDoor::new(rt, "127.0.0.1:0", SILENCE_SECONDS)?;
    let mut address = Vec::new(alloc);
    assert!(rt; door.listen(&mut address).is_ok());
    let mut link = TcpLink::new(rt, str::from_utf8(address.as_slice())?)?;
    assert!(rt; link.put(b"hello").is_ok());
    let mut buf = [0u8; 8];
    let Ok(Some(mut stream)) = door.accept() else {
        return Err(Fail::from("no stream"));
    };
    assert_eq!(rt; stream.take(&mut buf), Ok(5));
    assert!(rt; stream.put(b"hi").is_ok());
    assert_eq!(rt; link.take(&mut buf), Ok(2));
    door.ended(0, stream, SessionEnd::End);
    assert_eq!(rt; link.take(&mut buf), Ok(0));
    let mut twice = TcpDoor::new(rt, str::from_utf8(address.as_slice())?, 1)?;
    assert!(rt; twice.listen(&mut address).is_err());
    assert_eq!(rt; twice.reason(), Some(ErrorKind::AddrInUse));
    Ok(())
}

#[test]
fn a_silent_client_is_a_fault(rt: HostRuntime) -> Result<(), Fail> {
    let alloc = rt.alloc();
    let mut door = TcpDoor::new(rt, "127.0.0.1:0", 1)?;
    let mut address = Vec::new(alloc);
    assert!(rt; door.listen(&mut address).is_ok());
    let mut link = TcpLink::new(rt, str::from_utf8(address.as_slice())?)?;
    assert!(rt; link.put(b"hello").is_ok());
    let mut buf = [0u8; 8];
    let Ok(Some(mut stream)) = door.accept() else {
        return Err(Fail::from("no stream"));
    };
    assert_eq!(rt; stream.take(&mut buf), Ok(5));
    assert_eq!(rt; stream.take(&mut buf), Err(Fault));
    Ok(())
}

#[test]
fn nobody_listens(rt: HostRuntime) -> Result<(), Fail> {
    let mut peer = NetPeer::new(TcpLink::new(rt, "127.0.0.1:1")?)?;
    let mut reply = Vec::new(rt.alloc());
    assert_eq!(rt; peer.ask(&[1], &mut reply), Err(PeerFault::Link));
    assert_eq!(rt; peer.link().reason(), Some(ErrorKind::ConnectionRefused));
    Ok(())
}
