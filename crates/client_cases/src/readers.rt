//! What a reader does.
use crate::case::Case;
use crate::peers::{peer_of, print_came};
use crate::texts::{lines_of, name_of, shown};
use ov_client::Client;
use ov_peer::Peer;
use std::alloc::Global;
use std::test::Fail;

// The reader whose line the case has.
fn reader_of(case: &Case) -> Result<Client, Fail> {
    Ok(Client::from_line(&case.keys).ok_or("a line of keys was expected")?)
}

// What a reader has behind one byte that was there before, and what came of the read.
fn read<P: Peer>(alloc: Global, client: &Client, peer: &mut P, file: &str) -> Result<String, Fail> {
    let file = name_of(file)?;
    let mut into = vec![in alloc; b'>'; 1]?;
    let result = client.read(alloc, peer, &file, &mut into);
    let bytes = shown(alloc, &into)?;
    Ok(match result {
        Ok(()) => format!(in alloc; "ok, {bytes}")?,
        Err(fault) => format!(in alloc; "{fault:?}, {bytes}")?,
    })
}

// The bytes that a reader fetches, or why there are none.
fn fetched<P: Peer>(
    alloc: Global,
    client: &Client,
    peer: &mut P,
    file: &str,
) -> Result<String, Fail> {
    let file = name_of(file)?;
    match client.fetch(alloc, peer, &file) {
        Ok(bytes) => {
            let bytes = shown(alloc, bytes.as_slice())?;
            Ok(format!(in alloc; "ok, {bytes}")?)
        }
        Err(fault) => Ok(format!(in alloc; "{fault:?}")?),
    }
}

/// Prints what comes of a read over the case's replies.
pub fn print_read(
    rt: &HostRuntime,
    case: &Case,
    line: &str,
    word: &str,
    file: &str,
) -> Result<(), Fail> {
    let client = reader_of(case)?;
    let mut peer = peer_of(rt.alloc(), case)?;
    let came = match word {
        "read" => read(rt.alloc(), &client, &mut peer, file)?,
        _ => fetched(rt.alloc(), &client, &mut peer, file)?,
    };
    print_came(rt, line, came.as_str(), &peer)
}

/// Prints the line of the reader whose keys are in the case's line, behind a byte that was there
/// before; or that there is none.
pub fn print_line(rt: &HostRuntime, case: &Case) -> Result<(), Fail> {
    let mut out = vec![in rt.alloc(); b'>'; 1]?;
    match Client::from_line(&case.keys) {
        Some(client) => client.line(&mut out)?,
        None => out.extend_from_slice(b"no line of keys\n")?,
    }
    let text = lines_of(rt.alloc(), &out)?;
    print!(rt; "{text}")?;
    Ok(())
}
