//! Writes that fail for different reasons, of which one is that nobody reads any longer.
use ov_run::Watched;
use std::io::{self, ErrorKind, Write};
use std::test::Fail;

// Fails each write for one reason.
#[derive(Drop)]
struct Failing {
    kind: ErrorKind,
}

impl Write for Failing {
    fn write(&mut self, _buf: &[u8]) -> io::Result<usize> {
        Err(io::Error::from(self.kind))
    }

    fn flush(&mut self) -> io::Result<()> {
        Ok(())
    }
}

fn kind_of(word: &str) -> Result<ErrorKind, Fail> {
    match word {
        "broken-pipe" => Ok(ErrorKind::BrokenPipe),
        "storage-full" => Ok(ErrorKind::StorageFull),
        _ => Err(Fail::from("broken-pipe or storage-full")),
    }
}

/// Prints whether a write that fails for this reason fails, and whether its reader is gone.
pub fn print_watched(rt: &HostRuntime, word: &str) -> Result<(), Fail> {
    let kind = kind_of(word)?;
    let mut replies = Watched::new(Failing { kind });
    let written = match replies.write(b"ok 1\n") {
        Ok(_) => "is written",
        Err(_) => "fails",
    };
    let reader = if replies.reader_is_gone() {
        "is gone"
    } else {
        "isn't gone"
    };
    drop(replies);
    println!(rt; "watched {word}: the line {written}, the reader {reader}")?;
    Ok(())
}
