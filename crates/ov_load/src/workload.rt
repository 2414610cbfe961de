//! The commands of a load, answered one after another.
ghost use Rattle.std.specs.Prelude.{◌≡◌, ◌≤◌, ◌-◌, ◌^◌, false, Err, OnOk};
ghost use Rattle.ov_history.specs.Masters.{Masters};
ghost use Rattle.ov_history.specs.Plain.{PlainHistory};
ghost use Rattle.ov_script.specs.declared.drawn.TheConstants.{MAX_WORKLOAD};
ghost use Rattle.ov_machine.specs.Disks.{Holds};
ghost use Rattle.ov_machine.specs.Frames.{Traces};
ghost use Rattle.ov_machine.specs.Machine.{IsCommand, IsStep, StandsFor};
ghost use Rattle.ov_machine.specs.Sinks.{PutsTo};
ghost use Rattle.ov_machine.specs.declared.fault.StepFault.{StepFault};
ghost use Rattle.ov_load.specs.LoadEnding.{TracesLoad};
ghost use Rattle.ov_load.specs.Loading.{Loads, OneMore, TalliesAt};
ghost use Rattle.ov_load.specs.Tallying.{AreAtMost};

use crate::load_words::Load;
use crate::tally::Tally;
use ov_disk::Disk;
use ov_io::Sink;
use ov_machine::{Machine, StepFault};
use ov_script::{Command, Workload, line};
use std::alloc::Global;

// Answers one command, and tallies its reply.
fn answer<D: Disk, T: Sink>(
    command: Command,
    machine: &mut Machine<D>,
    buffer: &mut Vec<u8>,
    tally: &mut Tally,
    trace: &mut T,
) -> Result<(), StepFault>
    requires command { IsCommand command }
    requires healthy { machine.old.failed ≡ false }
    requires room { AreAtMost tally.old.counts (2 ^ 32 - 2) }
    ensures answer { (k : Masters) (h : PlainHistory) → machine.old.kept.masters ≡ k
        → StandsFor machine.old.kept h
        → TalliesAt D.tells k h command tally.old tally.new machine.old machine.new result }
    ensures counts { OnOk result (OneMore tally.old.counts tally.new.counts) }
    ensures step { IsStep D.tells machine.old machine.new result }
    ensures traced { Traces D.tells command machine.old machine.new
        (T.tells.written trace.old) (T.tells.written trace.new) result }
    ensures trace { PutsTo T.tells (result ≡ Err StepFault.Trace) trace.old trace.new }
{
    let alloc = *buffer.allocator();
    let reply = machine.step(alloc, command, trace)?;
    buffer.clear();
    line(&reply, buffer)?;
    tally.take(&reply, buffer);
    Ok(())
}

/// Answers the commands of a load from the first to the last, and asks for the epoch. Of their
/// replies it keeps the tally alone.
pub fn answer_workload<D: Disk, T: Sink>(
    alloc: Global,
    load: &Load,
    machine: &mut Machine<D>,
    trace: &mut T,
) -> Result<Tally, StepFault>
    requires count { load.now.count ≤ MAX_WORKLOAD }
    requires healthy { machine.old.failed ≡ false }
    ensures loads { (h : PlainHistory) → StandsFor machine.old.kept h
        → Loads D.tells machine.old.kept.masters h load.now machine.old machine.new result }
    ensures step { IsStep D.tells machine.old machine.new result }
    ensures traced { (h : PlainHistory) → StandsFor machine.old.kept h
        → TracesLoad D.tells machine.old.kept.masters h load.now machine.new.disk
        (T.tells.written trace.old) (T.tells.written trace.new)
        (Holds D.tells machine.old.kept.masters h h machine.old.disk) result }
    ensures trace { PutsTo T.tells (result ≡ Err StepFault.Trace) trace.old trace.new }
{
    let mut workload = Workload::new(alloc, load.number, load.count);
    let mut tally = Tally::new();
    let mut buffer = Vec::new(alloc);
    'commands: while let Some(command) = workload.next()? {
        answer(command, machine, &mut buffer, &mut tally, trace)?;
    }
    machine.step(alloc, Command::Epoch, trace)?;
    Ok(tally)
}
