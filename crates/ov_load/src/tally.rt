//! What is kept of the replies of a load: their counts, and the hash of their lines.
ghost use Rattle.std.specs.Prelude.{◌≡◌, ◌-◌, ◌^◌};

use ov_script::Reply;
use sha2::{Digest, Sha256};

/// How many replies of each kind there were.
#[derive(Clone, Copy)]
pub struct Counts {
    /// Updates that were accepted.
    pub accepted: u32,
    /// Updates and questions that were refused.
    pub refused: u32,
    /// Reads that gave a file.
    pub given: u32,
    /// Lists.
    pub listed: u32,
}

/// What is kept of replies.
#[derive(Drop)]
pub struct Tally {
    pub counts: Counts,
    pub hasher: Sha256,
}

impl Counts {
    ghost use Rattle.ov_load.specs.Tallying.{AreAtMost, counted};

    // Counts a reply.
    fn add(&mut self, reply: &Reply)
        requires { AreAtMost self.old (2 ^ 32 - 2) }
        ensures { self.new ≡ counted self.old reply.now }
    {
        match reply {
            Reply::Accepted(_) => self.accepted += 1,
            Reply::Refused(_) => self.refused += 1,
            Reply::Bytes { .. } => self.given += 1,
            Reply::List { .. } => self.listed += 1,
            Reply::Epoch(_) | Reply::End(_) => {}
        }
    }
}

impl Tally {
    ghost use Rattle.ov_load.specs.Tallying.{AreAtMost, TalliesNothing, Takes, counted};

    /// A tally of no replies.
    pub fn new() -> Tally
        ensures { TalliesNothing result }
    {
        Tally {
            counts: Counts {
                accepted: 0,
                refused: 0,
                given: 0,
                listed: 0,
            },
            hasher: Sha256::new(),
        }
    }

    /// Counts a reply, and hashes its line.
    pub fn take(&mut self, reply: &Reply, line: &[u8])
        requires { AreAtMost self.old.counts (2 ^ 32 - 2) }
        ensures { Takes self.old reply.now line.now self.new }
    {
        self.counts.add(reply);
        self.hasher.update(line);
    }
}
