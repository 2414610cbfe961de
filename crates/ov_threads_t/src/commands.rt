//! The commands of an owner and of a reader, to a server in another thread.
use crate::lines::Lines;
use crate::port::host_at_port;
use ov_acts::{act, read_job};
use ov_base::Octets;
use ov_io::{MemSink, MemSource, Sink, Source};
use ov_peer::Peer;
use ov_session::{NetPeer, TcpLink};
use std::alloc::Global;
use std::net::Net;
use std::process::Abort;
use std::sync::Wait;
use std::test::Fail;
use std::thread;

/// The owner's key file.
const KEYS: &[u8] = b"\
    000102030405060708090a0b0c0d0e0f101112131415161718191a1b1c1d1e1f\n\
    e0e1e2e3e4e5e6e7e8e9eaebecedeeeff0f1f2f3f4f5f6f7f8f9fafbfcfdfeff\n";

/// The key line of alice, as another program makes it.
const ALICE: &[u8] = b"\
    alice 0 e5d4e0cb9cd6b9f87f234094262fd9cdb24fdca5455c2bf1fac6a2849b0ef5a3 \
    0 b8edad2f5045b06987cdfd5284d8a1db28cd76d53cba1b9e9168877c81e46c6f\n";

/// More bytes than one reply has.
const LONG: usize = 70_000;

/// The bytes of a file, of which no two parts are alike.
fn report(rt: &impl Abort, alloc: Global) -> Vec<u8> {
    let mut bytes = Vec::new(alloc);
    for place in 0..LONG {
        bytes.push((place % 251) as u8).expect(rt, "memory");
    }
    bytes
}

/// The words of a line.
fn words_of(rt: &impl Abort, alloc: Global, line: &str) -> Vec<String> {
    let mut words = Vec::new(alloc);
    for word in line.split(' ') {
        let word = String::from_str(alloc, word).expect(rt, "memory");
        words.push(word).expect(rt, "memory");
    }
    words
}

/// A source of these bytes.
fn source(rt: &impl Abort, alloc: Global, bytes: &[u8]) -> MemSource {
    let bytes = Octets::copy(alloc, bytes).expect(rt, "memory");
    MemSource::new(bytes, 100_000, Octets::new(alloc))
}

/// The status of the command that these words are, over any files and any peer. No clause says what
/// comes of it, so that no proof computes it.
fn status<K: Source, B: Source, O: Sink, P: Peer>(
    alloc: Global,
    words: &[String],
    keys: &mut K,
    body: &mut B,
    out: &mut O,
    peer: &mut P,
) -> u8 {
    match read_job(alloc, words) {
        Ok(job) => act(alloc, &job, keys, body, out, peer),
        Err(code) => code,
    }
}

/// A server's address, and the files that its client has: the key file, and the bytes to be stored.
#[derive(Drop)]
struct Client<'a> {
    address: &'a str,
    keys: &'a [u8],
    body: &'a [u8],
}

/// The command that this line is, over a connection of its own, is done, and prints this.
fn expect_done<N: Abort + AllocGlobal + Net + Copy + Drop>(
    net: &N,
    alloc: Global,
    client: &Client<'_>,
    line: &str,
    printed: &[u8],
) {
    let link = TcpLink::new(*net, client.address).expect(net, "memory");
    let mut peer = NetPeer::new(link).expect(net, "memory");
    let mut keys = source(net, alloc, client.keys);
    let mut body = source(net, alloc, client.body);
    let mut out = MemSink::new(alloc, Octets::new(alloc));
    let words = words_of(net, alloc, line);
    let code = status(alloc, &words, &mut keys, &mut body, &mut out, &mut peer);
    assert_eq!(net; code, 0, "{line}");
    assert_eq!(net; out.written(), printed, "{line}");
}

/// At the server whose lines these are an owner enrols alice, creates a file and prints her key line,
/// by which she reads the file; then the owner replaces it, she reads it again, and the owner removes
/// it. Each command names a server and files that only its hints would show.
fn ask_for_all<N: Abort + AllocGlobal + Net + Wait + Copy + Drop>(
    net: &N,
    alloc: Global,
    lines: &Lines,
) {
    let address = lines.address(net).expect(net, "an address");
    let report = report(net, alloc);
    let owner = Client {
        address,
        keys: KEYS,
        body: &report,
    };
    let again = Client {
        address,
        keys: KEYS,
        body: b"new",
    };
    let alice = Client {
        address,
        keys: ALICE,
        body: &[],
    };
    let create = "create there keys f alice path";
    expect_done(net, alloc, &owner, "enrol there keys alice", b"ok 1\n");
    expect_done(net, alloc, &owner, create, b"ok 2\n");
    expect_done(net, alloc, &owner, "key there keys alice", ALICE);
    expect_done(net, alloc, &alice, "read there key f", &report);
    expect_done(net, alloc, &again, "replace there keys f path", b"ok 3\n");
    expect_done(net, alloc, &alice, "read there key f", b"new");
    expect_done(net, alloc, &owner, "remove there keys f", b"ok 4\n");
}

#[test]
fn seven_commands_over_a_port(rt: HostRuntime) -> Result<(), Fail> {
    let alloc = rt.alloc();
    let lines = Lines::new();
    let lent = &lines;
    let (status, ()) = thread::join(
        &rt,
        move || host_at_port(&rt, alloc, lent),
        || ask_for_all(&rt, alloc, lent),
    );
    assert_eq!(rt; status, 0);
    let served = lines.second().ok_or("a second line")?;
    assert_eq!(rt; served, b"served 7\n".as_slice());
    Ok(())
}
