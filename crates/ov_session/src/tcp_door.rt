//! A door at a TCP port. What the system's sockets give and take is trusted.
ghost use Rattle.std.specs.Prelude.{◌≡◌, ◌+◌, ◌-◌, ◌^◌, ◌++◌, min, None, Some, false, OnErr, OnOk};
ghost use Rattle.std.specs.Option.{option_map};
ghost use Rattle.std.specs.Net.Text.{socket_text};
ghost use Rattle.std.specs.declared.net.socket_addr.SocketAddr.{SocketAddr};

use crate::{Connection, Door, SessionEnd};
use ov_base::Memory;
use ov_io::Fault;
use std::io;
use std::io::ErrorKind;
use std::net::{Net, OpenListener, OpenStream, SocketAddr, TcpListener};
use std::time::Duration;

/// After how many seconds a server ends a session whose client is silent. As many silent clients as
/// sessions may run at once would hold up all others. Five minutes are longer than any pause that a
/// client makes between two requests.
pub const SILENCE_SECONDS: u64 = 300;

/// How many connections that broke before they were accepted are passed over in one call.
const MOST_BROKEN: u32 = 100;

/// A listener, and where the system says that it listens.
#[derive(Drop)]
struct Listening<L> {
    listener: L,
    bound: SocketAddr,
}

/// A door that listens at an address, and gives a stream for each connection. It tells nothing of
/// the streams, and always has more; where it listens it tells as the system does.
#[derive(Drop)]
pub struct TcpDoor<R: Net + AllocGlobal + Drop> {
    rt: R,
    address: String,
    silence: Duration,
    listening: Option<Listening<R::Listener>>,
    client: Option<SocketAddr>,
    given: u64,
    faults: u64,
    reason: Option<ErrorKind>,
}

// Whether a connection broke while it waited, which says nothing of the next one.
fn is_broken(kind: ErrorKind) -> bool {
    matches!(
        kind,
        ErrorKind::ConnectionAborted | ErrorKind::ConnectionReset | ErrorKind::Interrupted
    )
}

// Each small frame is sent at once, and a client that stays silent is a fault of the stream.
fn set_up<S: OpenStream>(stream: &S, silence: Duration) -> io::Result<()> {
    stream.set_nodelay(true)?;
    stream.set_read_timeout(Some(silence))?;
    stream.set_write_timeout(Some(silence))
}

// The listener's next connection, and whose it is; none where it broke.
fn accepted<R: Net>(
    listener: &R::Listener,
    silence: Duration,
) -> io::Result<Option<(R::Stream, SocketAddr)>> {
    match listener.accept() {
        Ok((stream, client)) => match set_up(&stream, silence) {
            Ok(()) => Ok(Some((stream, client))),
            Err(_) => Ok(None),
        },
        Err(error) => {
            if is_broken(error.kind()) {
                return Ok(None);
            }
            Err(error)
        }
    }
}

impl<R: Net + AllocGlobal + Drop> TcpDoor<R> {
    /// A door at this address, a host and a port, which doesn't listen yet. At port 0 the system
    /// chooses one. A stream that it gives fails once its client has sent nothing that is waited for,
    /// or taken nothing that is sent, for so many seconds, at least one.
    pub fn new(rt: R, address: &str, silence: u64) -> Result<TcpDoor<R>, Memory> {
        let address = String::from_str(rt.alloc(), address)?;
        Ok(TcpDoor {
            rt,
            address,
            silence: Duration::from_secs(silence),
            listening: None,
            client: None,
            given: 0,
            faults: 0,
            reason: None,
        })
    }

    /// Why the last call that failed did, where the system said so.
    pub fn reason(&self) -> Option<ErrorKind> {
        self.reason
    }

    /// The address of whoever made the last connection that was given.
    pub fn client(&self) -> Option<SocketAddr> {
        self.client
    }

    // Listens, and appends the address at which it does, as the system tells it.
    fn open(&mut self, address: &mut Vec<u8>) -> io::Result<()>
        ensures given { self.new.given ≡ self.old.given }
        ensures faults { self.new.faults ≡ self.old.faults }
        ensures appended { OnOk result ((bound : SocketAddr)
            × (option_map (λ l. l.bound) self.new.listening ≡ Some bound)
            × (address.new.items ≡ address.old.items ++ socket_text bound)) }
        ensures stays { OnErr result (self.new.listening ≡ self.old.listening) }
    {
        let listener = TcpListener::bind(&self.rt, self.address.as_str())?;
        let bound = listener.local_addr()?;
        let text = format!(in self.rt.alloc(); "{bound}")?;
        address.extend_from_slice(text.as_bytes())?;
        self.listening = Some(Listening { listener, bound });
        Ok(())
    }

    // The next connection, and whose it is. One that broke is passed over.
    fn next(&self) -> io::Result<(R::Stream, SocketAddr)> {
        let Some(Listening { listener, .. }) = &self.listening else {
            return Err(io::Error::from(ErrorKind::NotConnected));
        };
        for _ in 0..MOST_BROKEN {
            if let Some(next) = accepted::<R>(listener, self.silence)? {
                return Ok(next);
            }
        }
        Err(io::Error::from(ErrorKind::ConnectionAborted))
    }

    fn fail(&mut self, kind: ErrorKind) -> Fault
        ensures given { self.new.given ≡ self.old.given }
        ensures listening { self.new.listening ≡ self.old.listening }
        ensures counts { self.new.faults ≡ min (self.old.faults + 1) (2 ^ 64 - 1) }
    {
        self.reason = Some(kind);
        self.faults = self.faults.saturating_add(1);
        Fault
    }
}

impl<R: Net + AllocGlobal + Drop> Door for TcpDoor<R> {
    type Stream = Connection<R::Stream>;

    ghost shows = { λ d. record {
      listens_at = option_map (λ l. socket_text l.bound) d.listening;
      told = None;
      given = d.given;
      closed = false;
      faults = d.faults;
    } };

    fn listen(&mut self, address: &mut Vec<u8>) -> Result<(), Fault> {
        match self.open(address) {
            Ok(()) => Ok(()),
            Err(error) => Err(self.fail(error.kind())),
        }
    }

    fn accept(&mut self) -> Result<Option<Connection<R::Stream>>, Fault> {
        // A number of streams past the last one of 64 bits can't be told.
        if self.given == u64::MAX {
            return Err(self.fail(ErrorKind::Other));
        }
        match self.next() {
            Ok((stream, client)) => {
                self.given += 1;
                self.client = Some(client);
                Ok(Some(Connection::new(stream)))
            }
            Err(error) => Err(self.fail(error.kind())),
        }
    }

    fn ended(&mut self, number: u32, stream: Connection<R::Stream>, end: SessionEnd) {
        let _ = (number, stream, end);
    }
}
