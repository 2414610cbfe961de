//! A client's stream over TCP. What the system's sockets give and take is trusted.
ghost use Rattle.std.specs.Prelude.{◌≡◌, None, ⊤};
ghost use Rattle.std.specs.Io.{ReadsAtMost};

use ov_base::Memory;
use ov_io::{Fault, Sink, Source, Stream};
use ov_retry::read_retrying;
use std::io;
use std::io::{ErrorKind, Read, Write};
use std::net::{Net, OpenStream, TcpStream};

/// A connection to an address, a host and a port, which is made at the first call. It tells nothing
/// of its bytes. Where it can't be made that call fails, and the next one tries again. A signal that
/// interrupts a read or a write is no fault: the call is made again.
#[derive(Drop)]
pub struct TcpLink<R: Net + AllocGlobal + Drop> {
    rt: R,
    address: String,
    stream: Option<R::Stream>,
    read_faults: u64,
    write_faults: u64,
    reason: Option<ErrorKind>,
}

impl<R: Net + AllocGlobal + Drop> TcpLink<R> {
    /// A stream to this address, which isn't connected yet.
    pub fn new(rt: R, address: &str) -> Result<TcpLink<R>, Memory> {
        let address = String::from_str(rt.alloc(), address)?;
        Ok(TcpLink {
            rt,
            address,
            stream: None,
            read_faults: 0,
            write_faults: 0,
            reason: None,
        })
    }

    /// Why the last call that failed did, where the system said so.
    pub fn reason(&self) -> Option<ErrorKind> {
        self.reason
    }

    // Connects where it isn't connected. Each small frame is sent at once.
    fn connect(&mut self) -> io::Result<()>
        ensures reads { self.new.read_faults ≡ self.old.read_faults }
        ensures writes { self.new.write_faults ≡ self.old.write_faults }
    {
        if self.stream.is_none() {
            let stream = TcpStream::connect(&self.rt, self.address.as_str())?;
            stream.set_nodelay(true)?;
            self.stream = Some(stream);
        }
        Ok(())
    }

    fn read(&mut self, buf: &mut [u8]) -> io::Result<usize>
        ensures bound { ReadsAtMost result buf.new }
        ensures reads { self.new.read_faults ≡ self.old.read_faults }
        ensures writes { self.new.write_faults ≡ self.old.write_faults }
    {
        self.connect()?;
        match &mut self.stream {
            Some(stream) => read_retrying(stream, buf),
            None => Err(io::Error::from(ErrorKind::NotConnected)),
        }
    }

    fn write(&mut self, bytes: &[u8]) -> io::Result<()>
        ensures reads { self.new.read_faults ≡ self.old.read_faults }
        ensures writes { self.new.write_faults ≡ self.old.write_faults }
    {
        self.connect()?;
        match &mut self.stream {
            Some(stream) => stream.write_all(bytes),
            None => Err(io::Error::from(ErrorKind::NotConnected)),
        }
    }
}

impl<R: Net + AllocGlobal + Drop> Source for TcpLink<R> {
    ghost tells = { record {
      left = λ _. None;
      faults = λ s. s.read_faults;
      borrow = λ _. 0;
      takes = λ a b. b.write_faults ≡ a.write_faults;
    } };

    fn take(&mut self, buf: &mut [u8]) -> Result<usize, Fault> {
        match self.read(buf) {
            Ok(count) => Ok(count),
            Err(error) => {
                self.reason = Some(error.kind());
                self.read_faults = self.read_faults.saturating_add(1);
                Err(Fault)
            }
        }
    }
}

impl<R: Net + AllocGlobal + Drop> Sink for TcpLink<R> {
    ghost tells = { record {
      written = λ _. None;
      faults = λ s. s.write_faults;
      borrow = λ _. 0;
      puts = λ a b. b.read_faults ≡ a.read_faults;
    } };

    fn put(&mut self, bytes: &[u8]) -> Result<(), Fault> {
        match self.write(bytes) {
            Ok(()) => Ok(()),
            Err(error) => {
                self.reason = Some(error.kind());
                self.write_faults = self.write_faults.saturating_add(1);
                Err(Fault)
            }
        }
    }
}

impl<R: Net + AllocGlobal + Drop> Stream for TcpLink<R> {
    ghost use Rattle.std.proofs.Common.{refl};

    ghost take_leaves = { λ old new took. record { bytes = refl; faults = took; borrow = refl } };

    ghost put_leaves = { λ old new put. record { bytes = refl; faults = put; borrow = refl } };
}
