//! A store that is begun on a disk and asked frames. Each call of the libraries is wrapped in a
//! function without a clause, so that what their contracts promise isn't carried through every
//! caller.
use crate::case::Keys;
use crate::texts::{shown, sum_of};
use crate::words::push_words;
use ov_base::Octets;
use ov_disk::{Disk, MemDisk};
use ov_peer::Answerer;
use ov_report::line_on_fault;
use ov_server::Server;
use ov_store::{BeginFault, Store};
use std::alloc::Global;
use std::str;
use std::test::Fail;

/// What came of a server: why there was none, or its replies, and what is known of its store.
#[derive(Drop)]
pub struct Outcome {
    pub error: String,
    pub replies: Vec<Octets>,
    pub epoch: u32,
    pub is_first_form: bool,
    pub false_record: Option<u64>,
}

/// A server over the store that begins on this disk.
pub fn begun<D: Disk + Drop>(alloc: Global, disk: D, keys: &Keys) -> Result<Server<D>, BeginFault> {
    match Store::begin(alloc, disk, keys.surface, keys.base_check, keys.mode) {
        Ok(store) => Ok(Server::new(store, keys.surface)),
        Err(refused) => Err(refused.fault),
    }
}

// What is replied to the frame that these words are.
fn reply_to<A: Answerer>(
    alloc: Global,
    server: &mut A,
    keys: &Keys,
    words: &str,
) -> Result<Octets, Fail> {
    let mut frame = Vec::new(alloc);
    push_words(alloc, &mut frame, words, server.epoch(), &keys.surface)?;
    let mut reply = Vec::new(alloc);
    if 1 <= frame.len() && frame.len() <= 1_000_000 {
        server.answer(&frame, &mut reply)?;
        Ok(Octets::from_vec(reply))
    } else {
        Err(Fail::from("a frame was expected"))
    }
}

// What is replied to each of these frames in turn.
fn replies_to<A: Answerer>(
    alloc: Global,
    server: &mut A,
    keys: &Keys,
    frames: &[String],
) -> Result<Vec<Octets>, Fail> {
    let mut replies = Vec::new(alloc);
    for words in frames {
        replies.push(reply_to(alloc, server, keys, words.as_str())?)?;
    }
    Ok(replies)
}

// The first record of a store that isn't of this owner, if that is wanted.
fn false_record<D: Disk>(
    alloc: Global,
    store: &mut Store<D>,
    keys: &Keys,
    looks: bool,
) -> Result<Option<u64>, BeginFault> {
    if looks {
        Ok(store.check(alloc, &keys.owner)?)
    } else {
        Ok(None)
    }
}

// What came of this server, whose records are looked at in the end, if that is wanted. No call is left
// early while the store is there: each exit would let go of it, and is proved for itself.
fn asked<D: Disk + Drop>(
    alloc: Global,
    server: Server<D>,
    keys: &Keys,
    frames: &[String],
    looks: bool,
) -> Result<Outcome, Fail> {
    let mut server = server;
    let replies = replies_to(alloc, &mut server, keys, frames);
    let epoch = server.epoch();
    let mut store = server.into_store();
    let is_first_form = store.is_to_be_carried_over();
    let found = false_record(alloc, &mut store, keys, looks);
    drop(store.close());
    let replies = replies?;
    let Ok(false_record) = found else {
        return Err(Fail::from("a store couldn't be looked at"));
    };
    Ok(Outcome {
        error: String::new(alloc),
        replies,
        epoch,
        is_first_form,
        false_record,
    })
}

// What is said where no store is begun.
fn refused(alloc: Global, fault: BeginFault) -> Result<Outcome, Fail> {
    let line = line_on_fault(alloc, fault)?;
    Ok(Outcome {
        error: String::from_str(alloc, str::from_utf8(&line)?)?,
        replies: Vec::new(alloc),
        epoch: 0,
        is_first_form: false,
        false_record: None,
    })
}

// Begins a store on a disk, and asks its server these frames.
fn serve_frames<D: Disk>(
    alloc: Global,
    keys: &Keys,
    frames: &[String],
    disk: &mut D,
    looks: bool,
) -> Result<Outcome, Fail> {
    match begun(alloc, disk, keys) {
        Ok(server) => asked(alloc, server, keys, frames, looks),
        Err(fault) => refused(alloc, fault),
    }
}

/// Begins a store on a disk, asks its server these frames, and looks at the records.
pub fn served<D: Disk>(
    alloc: Global,
    keys: &Keys,
    frames: &[String],
    disk: &mut D,
) -> Result<Outcome, Fail> {
    serve_frames(alloc, keys, frames, disk, true)
}

/// How many calls a disk has where a store is begun there and its server is asked these frames.
pub fn calls_of(
    alloc: Global,
    keys: &Keys,
    frames: &[String],
    disk: &mut MemDisk,
) -> Result<u64, Fail> {
    let before = disk.calls();
    drop(serve_frames(alloc, keys, frames, disk, false)?);
    Ok(disk.calls().saturating_sub(before))
}

// The places of the first gates of a store, in a line.
fn gates_in<D: Disk>(alloc: Global, store: &Store<D>, count: u64) -> Result<String, Fail> {
    let mut line = String::from_str(alloc, "gates")?;
    for record in 0..count {
        let gate = store.gate(record);
        line.push_str(&format!(in alloc; " {gate}")?)?;
    }
    Ok(line)
}

// The places of the first gates of a server's store, in a line.
fn gates_of<D: Disk + Drop>(alloc: Global, server: Server<D>, count: u64) -> Result<String, Fail> {
    let line = gates_in(alloc, server.store(), count);
    drop(server.into_store().close());
    line
}

/// Where the gates of the first records of the store on a disk are, and 0 past the last record.
pub fn gates<D: Disk>(
    alloc: Global,
    keys: &Keys,
    count: u64,
    disk: &mut D,
) -> Result<String, Fail> {
    match begun(alloc, disk, keys) {
        Ok(server) => gates_of(alloc, server, count),
        Err(_) => Err(Fail::from("a store was expected")),
    }
}

/// The lines on what came of a server over this disk.
pub fn told(alloc: Global, served: &Outcome, disk: &MemDisk) -> Result<String, Fail> {
    let mut lines = String::new(alloc);
    for reply in &served.replies {
        lines.push_str(&shown(alloc, reply.as_slice())?)?;
        lines.push_str("\n")?;
    }
    let (book, blobs) = (sum_of(alloc, disk.book())?, sum_of(alloc, disk.blobs())?);
    if !served.error.is_empty() {
        let error = served.error.as_str();
        return Ok(format!(in alloc; "{error}  book {book}, blobs {blobs}\n")?);
    }
    let form = if served.is_first_form {
        "first"
    } else {
        "second"
    };
    let found = match served.false_record {
        Some(place) => format!(in alloc; "the record at {place} is false")?,
        None => String::from_str(alloc, "no record is false")?,
    };
    let epoch = served.epoch;
    lines.push_str(&format!(in alloc; "  epoch {epoch}, {form} form, {found}\n")?)?;
    lines.push_str(&format!(in alloc; "  book {book}, blobs {blobs}\n")?)?;
    Ok(lines)
}
