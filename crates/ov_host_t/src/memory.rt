//! A server over a disk, a door and a sink in memory, by threads or with none.
use ov_base::{Key, Mode, Octets};
use ov_disk::MemDisk;
use ov_host::{Hosted, host};
use ov_io::{MemSink, MemSource, MemStream};
use ov_serving::Spawner;
use ov_session::{Gate, MemDoor};
use ov_settings::Settings;
use std::alloc::Global;
use std::process::Abort;
use std::sync::Wait;
use std::thread::Threads;

/// A Hello with its length field.
pub const HELLO: &[u8] = &[0, 0, 0, 1, 1];

/// What a server is given. Two of its sessions may run at the same time.
#[derive(Drop)]
pub struct Given {
    pub mode: Mode,
    pub sessions: u32,
    pub disk: MemDisk,
    pub streams: Vec<MemStream>,
    /// The calls of the door and of the sink that fail.
    pub door_fails: Octets,
    pub out_fails: Octets,
}

/// What a server leaves, and the most of its threads that there were at once.
#[derive(Drop)]
pub struct Left {
    pub hosted: Hosted<MemDisk>,
    pub door: MemDoor,
    pub out: MemSink,
    pub threads: usize,
}

/// A copy of these bytes.
pub fn octets(rt: &impl Abort, alloc: Global, bytes: &[u8]) -> Octets {
    Octets::copy(alloc, bytes).expect(rt, "memory")
}

/// A stream with these bytes to read, which come in pieces.
pub fn stream(rt: &impl Abort, alloc: Global, bytes: &[u8]) -> MemStream {
    let source = MemSource::new(octets(rt, alloc, bytes), 3, Octets::new(alloc));
    let sink = MemSink::new(alloc, Octets::new(alloc));
    MemStream { source, sink }
}

/// Serves what is given: each session in a thread of its own, or all by the caller.
pub fn serve<R: Threads + Wait + Copy + Send + 'static, G: Gate + Drop + Send + Sync + 'static>(
    rt: &R,
    alloc: Global,
    given: Given,
    gate: G,
    has_threads: bool,
) -> Left {
    let settings = Settings {
        address: Octets::new(alloc),
        mode: given.mode,
        surface: Key { bytes: [7; 32] },
        base_check: [17; 32],
        book: Octets::new(alloc),
        blobs: Octets::new(alloc),
        sessions: given.sessions,
        workers: 2,
    };
    let mut spawner = if has_threads {
        Spawner::new(alloc)
    } else {
        Spawner::refusing(alloc)
    };
    let mut door = MemDoor::new(alloc, given.streams, given.door_fails);
    let mut out = MemSink::new(alloc, given.out_fails);
    let hosted = host(
        rt,
        alloc,
        &settings,
        given.disk,
        &mut door,
        &mut spawner,
        gate,
        &mut out,
    );
    Left {
        hosted,
        door,
        out,
        threads: spawner.most(),
    }
}
