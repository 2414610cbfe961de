//! A socket that signals interrupt.
use std::cell::Cell;
use std::io;
use std::io::{ErrorKind, Read, Write};
use std::net::OpenStream;

/// The bytes that were written, and how many they are.
pub type Written = Cell<([u8; 16], usize)>;

/// A socket that gives and takes one byte at a time. A signal interrupts every call but each third,
/// and a write past the sixteenth byte fails.
#[derive(Drop)]
pub struct Dripping<'a> {
    left: &'static [u8],
    written: &'a Written,
    calls: u32,
}

impl<'a> Dripping<'a> {
    /// A socket that has these bytes to read, and writes here.
    pub fn new(left: &'static [u8], written: &'a Written) -> Dripping<'a> {
        Dripping {
            left,
            written,
            calls: 0,
        }
    }

    // Counts a call, which a signal may interrupt.
    fn call(&mut self) -> io::Result<()> {
        self.calls = self.calls.wrapping_add(1);
        if self.calls % 3 == 0 {
            Ok(())
        } else {
            Err(io::Error::from(ErrorKind::Interrupted))
        }
    }
}

impl<'a> Read for Dripping<'a> {
    fn read(&mut self, buf: &mut [u8]) -> io::Result<usize> {
        self.call()?;
        match (self.left, buf) {
            ([byte, rest @ ..], [first, ..]) => {
                *first = *byte;
                self.left = rest;
                Ok(1)
            }
            _ => Ok(0),
        }
    }
}

impl<'a> Write for Dripping<'a> {
    fn write(&mut self, buf: &[u8]) -> io::Result<usize> {
        self.call()?;
        let Some(byte) = buf.first() else {
            return Ok(0);
        };
        let (mut bytes, count) = self.written.get();
        match bytes.get_mut(count) {
            Some(place) => {
                *place = *byte;
                self.written.set((bytes, count.saturating_add(1)));
                Ok(1)
            }
            None => Err(io::Error::from(ErrorKind::BrokenPipe)),
        }
    }

    fn flush(&mut self) -> io::Result<()> {
        Ok(())
    }
}

impl<'a> OpenStream for Dripping<'a> {}
