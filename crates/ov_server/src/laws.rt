//! What a server in this process tells, for the proofs of callers. The function does nothing.
ghost use Rattle.std.specs.Prelude.{Ok};
ghost use Rattle.ov_server.specs.Answering.{AsksServer};
ghost use Rattle.ov_server.specs.Locally.{AreAlone};

use ov_disk::Disk;

/// Nobody else updates what a server in this process serves: by what it tells of an ask, it answers
/// at just the history that it serves. It answers that its disk failed only to a request that needs
/// the disk.
pub fn asks_are_alone<D: Disk>()
    ensures { AreAlone (λ p request reply q.
        AsksServer D.tells p q request reply (Ok tt)) }
{}
