//! The frames between the parties. The first of them comes once the store was opened, and before any
//! update.
use crate::told::older_store;
use ov_io::{Fault, Sink};

/// A sink of frames that says of an older store, at the first one, what its next update does.
#[derive(Drop)]
pub struct Frames<S: Sink> {
    sink: S,
    rt: HostRuntime,
    is_of_older_store: bool,
}

impl<S: Sink> Frames<S> {
    /// Puts frames to this sink, of a store that is of an older format or isn't.
    pub fn new(sink: S, rt: HostRuntime, is_of_older_store: bool) -> Frames<S> {
        Frames {
            sink,
            rt,
            is_of_older_store,
        }
    }
}

impl<S: Sink> Sink for Frames<S> {
    ghost tells = { record {
      written = λ s. S.tells.written s.sink;
      faults = λ s. S.tells.faults s.sink;
      borrow = λ s. S.tells.borrow s.sink;
      puts = λ a b. S.tells.puts a.sink b.sink;
    } };

    fn put(&mut self, bytes: &[u8]) -> Result<(), Fault> {
        if self.is_of_older_store {
            self.is_of_older_store = false;
            let rt = self.rt;
            older_store(&rt);
        }
        self.sink.put(bytes)
    }
}
