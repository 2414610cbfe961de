//! A connection that a door gave. What the system's sockets give and take is trusted.
ghost use Rattle.std.specs.Prelude.{◌≡◌, None};

use crate::{Dismiss, SessionEnd};
use ov_io::{Fault, Sink, Source, Stream};
use ov_retry::read_retrying;
use std::io::{Read, Write};
use std::net::{OpenStream, Shutdown};

/// A connection, which tells nothing of its bytes. A signal that interrupts a call is no fault: the
/// call is made again. It is shut once its session is over, so that its client sees the end though
/// the door takes it back later.
#[derive(Drop)]
pub struct Connection<S: Read + Write + OpenStream + Drop> {
    stream: S,
    read_faults: u64,
    write_faults: u64,
}

impl<S: Read + Write + OpenStream + Drop> Connection<S> {
    /// A connection over this stream, which has not failed yet.
    pub fn new(stream: S) -> Connection<S> {
        Connection {
            stream,
            read_faults: 0,
            write_faults: 0,
        }
    }
}

impl<S: Read + Write + OpenStream + Drop> Dismiss for Connection<S> {
    fn dismiss(&self, number: u32, end: SessionEnd) {
        let _ = (number, end);
        let _ = self.stream.shutdown(Shutdown::Both);
    }
}

impl<S: Read + Write + OpenStream + Drop> Source for Connection<S> {
    ghost tells = { record {
      left = λ _. None;
      faults = λ s. s.read_faults;
      borrow = λ _. 0;
      takes = λ a b. b.write_faults ≡ a.write_faults;
    } };

    fn take(&mut self, buf: &mut [u8]) -> Result<usize, Fault> {
        match read_retrying(&mut self.stream, buf) {
            Ok(count) => Ok(count),
            Err(_) => {
                self.read_faults = self.read_faults.saturating_add(1);
                Err(Fault)
            }
        }
    }
}

impl<S: Read + Write + OpenStream + Drop> Sink for Connection<S> {
    ghost tells = { record {
      written = λ _. None;
      faults = λ s. s.write_faults;
      borrow = λ _. 0;
      puts = λ a b. b.read_faults ≡ a.read_faults;
    } };

    fn put(&mut self, bytes: &[u8]) -> Result<(), Fault> {
        match self.stream.write_all(bytes) {
            Ok(()) => Ok(()),
            Err(_) => {
                self.write_faults = self.write_faults.saturating_add(1);
                Err(Fault)
            }
        }
    }
}

impl<S: Read + Write + OpenStream + Drop> Stream for Connection<S> {
    ghost use Rattle.std.proofs.Common.{refl};

    ghost take_leaves = { λ old new took. record { bytes = refl; faults = took; borrow = refl } };

    ghost put_leaves = { λ old new put. record { bytes = refl; faults = put; borrow = refl } };
}
