//! Servers at a door in memory, by threads and with none.
ghost use Rattle.std.specs.Prelude.{◌≡◌};

use crate::case::Case;
use crate::disks::copy_of;
use crate::texts::{number_of, small_of, sum_of};
use ov_base::Octets;
use ov_disk::{Disk, MemDisk};
use ov_host::{Hosted, host};
use ov_io::{MemSink, MemSource, MemStream};
use ov_serving::Spawner;
use ov_session::{MemDoor, OpenGate};
use ov_settings::Settings;
use std::alloc::Global;
use std::str;
use std::sync::Wait;
use std::test::Fail;
use std::thread::Threads;

/// A Hello with its length field.
const HELLO: &[u8] = &[0, 0, 0, 1, 1];

// What a server of so many sessions is told. Two of them may run at the same time.
fn settings_of(alloc: Global, case: &Case, sessions: u32) -> Settings
    ensures { result.workers ≡ 2 }
{
    Settings {
        address: Octets::new(alloc),
        mode: case.keys.mode,
        surface: case.keys.surface,
        base_check: case.keys.base_check,
        book: Octets::new(alloc),
        blobs: Octets::new(alloc),
        sessions,
        workers: 2,
    }
}

// So many streams, each of which has a Hello in pieces.
fn streams_of(alloc: Global, streams: u64) -> Result<Vec<MemStream>, Fail> {
    let mut all = Vec::new(alloc);
    for _ in 0..streams {
        let source = MemSource::new(Octets::copy(alloc, HELLO)?, 3, Octets::new(alloc));
        let sink = MemSink::new(alloc, Octets::new(alloc));
        all.push(MemStream { source, sink })?;
    }
    Ok(all)
}

// The disk of the case, some of whose calls fail.
fn disk_of(alloc: Global, case: &Case) -> Result<MemDisk, Fail> {
    let mut disk = copy_of(alloc, &case.disk)?;
    for call in &case.failing_disks {
        disk.fail_at(u64::from(*call))?;
    }
    Ok(disk)
}

// Serves each session in a thread of its own, or all by the caller.
fn hosted<R: Threads + Wait + Copy + Send + 'static, D: Disk + Drop + Send + 'static>(
    handle: &R,
    alloc: Global,
    settings: &Settings,
    disk: D,
    streams: Vec<MemStream>,
    fails: Octets,
    out: &mut MemSink,
    has_threads: bool,
) -> Hosted<D>
    requires { settings.now.workers ≡ 2 }
{
    let mut spawner = if has_threads {
        Spawner::new(alloc)
    } else {
        Spawner::refusing(alloc)
    };
    let mut door = MemDoor::new(alloc, streams, fails);
    host(
        handle,
        alloc,
        settings,
        disk,
        &mut door,
        &mut spawner,
        OpenGate,
        out,
    )
}

// The lines, the status, and the disk that a server leaves.
fn told<R: Threads + Wait + Copy + Send + 'static>(
    handle: &R,
    alloc: Global,
    case: &Case,
    sessions: u32,
    streams: u64,
    has_threads: bool,
) -> Result<String, Fail> {
    let settings = settings_of(alloc, case, sessions);
    let streams = streams_of(alloc, streams)?;
    let doors = Octets::copy(alloc, &case.failing_doors)?;
    let disk = disk_of(alloc, case)?;
    let mut out = MemSink::new(alloc, Octets::copy(alloc, &case.failing_puts)?);
    let left = hosted(
        handle,
        alloc,
        &settings,
        disk,
        streams,
        doors,
        &mut out,
        has_threads,
    );
    let lines = str::from_utf8(out.written())?;
    let (status, book) = (left.status, sum_of(alloc, left.disk.book())?);
    let store = if left.begun { "begun" } else { "not begun" };
    Ok(format!(in alloc; "{lines}  status {status}, {store}, book {book}\n")?)
}

/// Prints what a server says of so many sessions, where a door has so many streams: the same by
/// threads and with none.
pub fn print_host<R: Threads + Wait + Copy + Send + 'static>(
    rt: &HostRuntime,
    handle: &R,
    case: &Case,
    rest: &str,
) -> Result<(), Fail> {
    let alloc = rt.alloc();
    let (sessions, streams) = rest.split_once(' ').ok_or("two numbers")?;
    let (sessions, streams) = (small_of(sessions)?, number_of(streams)?);
    let text = told(handle, alloc, case, sessions, streams, true)?;
    if told(handle, alloc, case, sessions, streams, false)? != text {
        return Err(Fail::from("without threads a server says something else"));
    }
    print!(rt; "host {rest}\n{text}")?;
    Ok(())
}
