//! A server at a port of this machine.
ghost use Rattle.std.specs.Prelude.{◌≡◌, ◌+◌, ◌-◌, ◌^◌, None, false, min};
ghost use Rattle.std.specs.Option.{option_map};
ghost use Rattle.std.specs.Net.Text.{socket_text};
ghost use Rattle.ov_base.specs.Causes.{Rose};

use crate::lines::{LineSink, Lines};
use ov_base::{Key, Mode, Octets};
use ov_disk::MemDisk;
use ov_host::host;
use ov_io::Fault;
use ov_serving::Spawner;
use ov_session::{Connection, Door, OpenGate, SessionEnd, TcpDoor};
use ov_settings::Settings;
use std::alloc::Global;
use std::net::Net;
use std::process::Abort;
use std::sync::Wait;
use std::thread::Threads;

/// The system chooses the port.
const ADDRESS: &str = "127.0.0.1:0";

/// The surface master of the owner's key file, and the check value of its base master.
const SURFACE: [u8; 32] = *b"\
    \xe0\xe1\xe2\xe3\xe4\xe5\xe6\xe7\xe8\xe9\xea\xeb\xec\xed\xee\xef\
    \xf0\xf1\xf2\xf3\xf4\xf5\xf6\xf7\xf8\xf9\xfa\xfb\xfc\xfd\xfe\xff";

const BASE_CHECK: [u8; 32] = *b"\
    \x2a\x4f\x6d\x54\xa4\x5f\x46\xe7\xa8\x18\xa4\xf5\x94\x51\xe9\xfb\
    \xb0\x95\x9a\xdd\x66\x60\xc9\x0f\xc1\xb8\xbf\x8d\x4b\x73\xc7\x45";

/// A door at a port, which counts for itself: that of `ov_session` doesn't say that a new one gave
/// no stream yet.
#[derive(Drop)]
struct PortDoor<N: Net + AllocGlobal + Drop> {
    door: TcpDoor<N>,
    given: u64,
    faults: u64,
}

impl<N: Net + AllocGlobal + Drop> PortDoor<N> {
    fn fail(&mut self) -> Fault
        ensures door { self.new.door ≡ self.old.door }
        ensures given { self.new.given ≡ self.old.given }
        ensures rose { Rose self.old.faults self.new.faults }
        ensures counts { self.new.faults ≡ min (self.old.faults + 1) (2 ^ 64 - 1) }
    {
        self.faults = self.faults.saturating_add(1);
        Fault
    }
}

impl<N: Net + AllocGlobal + Drop> Door for PortDoor<N> {
    type Stream = Connection<N::Stream>;

    ghost shows = { λ d. record {
      listens_at = option_map (λ l. socket_text l.bound) d.door.listening;
      told = None;
      given = d.given;
      closed = false;
      faults = d.faults;
    } };

    fn listen(&mut self, address: &mut Vec<u8>) -> Result<(), Fault> {
        match self.door.listen(address) {
            Ok(()) => Ok(()),
            Err(Fault) => Err(self.fail()),
        }
    }

    fn accept(&mut self) -> Result<Option<Connection<N::Stream>>, Fault> {
        if self.given == u64::MAX {
            return Err(self.fail());
        }
        match self.door.accept() {
            Ok(Some(stream)) => {
                self.given += 1;
                Ok(Some(stream))
            }
            _ => Err(self.fail()),
        }
    }

    fn ended(&mut self, number: u32, stream: Connection<N::Stream>, end: SessionEnd) {
        let _ = (number, stream, end);
    }
}

/// What a server of seven sessions is told, of which two may run at the same time.
fn settings(alloc: Global) -> Settings
    ensures { result.workers ≡ 2 }
{
    Settings {
        address: Octets::new(alloc),
        mode: Mode::Full,
        surface: Key { bytes: SURFACE },
        base_check: BASE_CHECK,
        book: Octets::new(alloc),
        blobs: Octets::new(alloc),
        sessions: 7,
        workers: 2,
    }
}

/// Serves seven sessions, and gives the status. Its lines are kept.
pub fn host_at_port<N: Abort + AllocGlobal + Net + Threads + Wait + Copy + Send + Drop + 'static>(
    net: &N,
    alloc: Global,
    lines: &Lines,
) -> u8
where
    N::Stream: Send + 'static,
{
    let mut door = PortDoor {
        door: TcpDoor::new(*net, ADDRESS, 10).expect(net, "memory"),
        given: 0,
        faults: 0,
    };
    let mut spawner = Spawner::new(alloc);
    let mut out = LineSink::new(alloc, lines);
    host(
        net,
        alloc,
        &settings(alloc),
        MemDisk::new(alloc),
        &mut door,
        &mut spawner,
        OpenGate,
        &mut out,
    )
    .status
}
