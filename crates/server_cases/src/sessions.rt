//! Sessions over streams in memory, which give their bytes in pieces.
use crate::case::{Case, Keys};
use crate::disks::copy_of;
use crate::parrot::Parrot;
use crate::serving::begun;
use crate::texts::{number_of, shown};
use crate::words::{area_of, push_words};
use ov_base::Octets;
use ov_disk::Disk;
use ov_io::{MemSink, MemSource, MemStream};
use ov_peer::Answerer;
use ov_server::Server;
use ov_session::{Alone, OpenGate, SessionEnd, serve_one};
use std::alloc::Global;
use std::sync::Wait;
use std::test::Fail;

// A stream of these bytes, in pieces of this size, some of whose calls fail.
fn stream_of(alloc: Global, case: &Case, bytes: &[u8], piece: usize) -> Result<MemStream, Fail> {
    if piece == 0 {
        return Err(Fail::from("pieces have a size"));
    }
    let takes = Octets::copy(alloc, &case.failing_takes)?;
    let puts = Octets::copy(alloc, &case.failing_puts)?;
    Ok(MemStream {
        source: MemSource::new(Octets::copy(alloc, bytes)?, piece, takes),
        sink: MemSink::new(alloc, puts),
    })
}

// How a session over this answerer ends.
fn end_over<R: Wait, A: Answerer>(
    handle: &R,
    alloc: Global,
    answerer: &mut A,
    stream: &mut MemStream,
) -> SessionEnd {
    let mut asker = Alone { value: answerer };
    serve_one(handle, alloc, 0, stream, &mut asker, &OpenGate)
}

// The words for an end, and what was written.
fn told(alloc: Global, end: SessionEnd, stream: &MemStream) -> Result<String, Fail> {
    let wrote = shown(alloc, stream.sink.written())?;
    Ok(match end {
        SessionEnd::End => format!(in alloc; "end, wrote {wrote}")?,
        SessionEnd::Bad { at } => format!(in alloc; "bad at {at}, wrote {wrote}")?,
        SessionEnd::LinkFault => format!(in alloc; "link fault, wrote {wrote}")?,
        SessionEnd::Memory => format!(in alloc; "no memory, wrote {wrote}")?,
        SessionEnd::Spent => format!(in alloc; "spent, wrote {wrote}")?,
    })
}

// A session with a parrot, in pieces of this size.
fn parrot_in<R: Wait>(
    handle: &R,
    alloc: Global,
    case: &Case,
    bytes: &[u8],
    piece: usize,
) -> Result<String, Fail> {
    let mut stream = stream_of(alloc, case, bytes, piece)?;
    let end = end_over(handle, alloc, &mut Parrot {}, &mut stream);
    told(alloc, end, &stream)
}

// How a session with this server ends.
fn end_of<R: Wait, D: Disk + Drop>(
    handle: &R,
    alloc: Global,
    server: Server<D>,
    stream: &mut MemStream,
) -> SessionEnd {
    let mut server = server;
    end_over(handle, alloc, &mut server, stream)
}

// A session with a server over this disk.
fn end_on<R: Wait, D: Disk>(
    handle: &R,
    alloc: Global,
    keys: &Keys,
    disk: &mut D,
    stream: &mut MemStream,
) -> Result<SessionEnd, Fail> {
    match begun(alloc, disk, keys) {
        Ok(server) => Ok(end_of(handle, alloc, server, stream)),
        Err(_) => Err(Fail::from("a store was expected")),
    }
}

// A session with a server over a copy of the case's disk, in pieces of this size.
fn server_in<R: Wait>(
    handle: &R,
    alloc: Global,
    case: &Case,
    bytes: &[u8],
    piece: usize,
) -> Result<String, Fail> {
    let mut stream = stream_of(alloc, case, bytes, piece)?;
    let mut disk = copy_of(alloc, &case.disk)?;
    let end = end_on(handle, alloc, &case.keys, &mut disk, &mut stream);
    drop(disk);
    told(alloc, end?, &stream)
}

// The frames of a case at epoch 0, each behind its length.
fn framed(alloc: Global, case: &Case) -> Result<Vec<u8>, Fail> {
    let mut bytes = Vec::new(alloc);
    for words in &case.frames {
        let mut frame = Vec::new(alloc);
        push_words(alloc, &mut frame, words.as_str(), 0, &case.keys.surface)?;
        match u32::try_from(frame.len()) {
            Ok(length) => bytes.extend_from_slice(&length.to_be_bytes())?,
            Err(_) => return Err(Fail::from("a shorter frame was expected")),
        }
        bytes.extend_from_slice(&frame)?;
    }
    Ok(bytes)
}

// What a session with a parrot, or with a server, comes to in pieces of each size.
fn told_in_each<R: Wait>(
    handle: &R,
    alloc: Global,
    case: &Case,
    bytes: &[u8],
    first: usize,
    last: usize,
    is_parrot: bool,
) -> Result<String, Fail> {
    let text = match is_parrot {
        true => parrot_in(handle, alloc, case, bytes, first)?,
        false => server_in(handle, alloc, case, bytes, first)?,
    };
    for piece in first..=last {
        let same = match is_parrot {
            true => parrot_in(handle, alloc, case, bytes, piece)?,
            false => server_in(handle, alloc, case, bytes, piece)?,
        };
        if same != text {
            return Err(Fail::from("pieces of another size come to something else"));
        }
    }
    Ok(text)
}

/// Prints what a session comes to in pieces of each size: with a parrot, of the bytes that these
/// words are, or with a server, of the case's frames.
pub fn print_session<R: Wait>(
    rt: &HostRuntime,
    handle: &R,
    case: &Case,
    rest: &str,
    is_parrot: bool,
) -> Result<(), Fail> {
    let (first, rest) = rest.split_once(' ').ok_or("a size of pieces")?;
    let (last, words) = rest.split_once(' ').unwrap_or((rest, ""));
    let (first, last) = (number_of(first)? as usize, number_of(last)? as usize);
    let bytes = match is_parrot {
        true if words.is_empty() => Vec::new(rt.alloc()),
        true => area_of(rt.alloc(), words)?,
        false => framed(rt.alloc(), case)?,
    };
    let text = told_in_each(handle, rt.alloc(), case, &bytes, first, last, is_parrot)?;
    println!(rt; "{text}")?;
    Ok(())
}
