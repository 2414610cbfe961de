//! The top call of a load.
ghost use Rattle.std.specs.Prelude.{◌≡◌, ◌⊎◌, ◌≤◌, false, IfSome};
ghost use Rattle.ov_base.specs.Causes.{Rose};
ghost use Rattle.ov_disk.specs.Disk.{Told};
ghost use Rattle.ov_disk.specs.Moments.{LeavesOnly};
ghost use Rattle.ov_history.specs.Masters.{Masters as PlainMasters};
ghost use Rattle.ov_history.specs.Plain.{PlainHistory};
ghost use Rattle.ov_script.specs.declared.drawn.TheConstants.{MAX_WORKLOAD};
ghost use Rattle.ov_machine.specs.Disks.{Holds, TellsNothing};
ghost use Rattle.ov_machine.specs.Machine.{AreMasters, StandsFor, plain_masters};
ghost use Rattle.ov_answering.specs.Answering.{SaysTag};
ghost use Rattle.ov_answering.specs.Ending.{EndsFor, FailsForFaults, JudgesImage, JudgesKeys};
ghost use Rattle.ov_answering.specs.Ending.{LeavesAsAtStart, RefusesWords};
ghost use Rattle.ov_answering.specs.Lasting.{LastsAs, OpensAs};
ghost use Rattle.ov_answering.specs.Printing.{IsKeysStatus, IsScriptStatus, IsStoreStatus};
ghost use Rattle.ov_load.specs.LoadEnding.{LoadEndsAs, LoadTracesAs};
ghost use Rattle.ov_load.specs.LoadWords.{AreNoLoad, IsLoad};
ghost use Rattle.ov_load.specs.Loading.{EndsLoad, ForLoad, ForLoadImage, IsComplete, IsOfNoScript};
ghost use Rattle.ov_load.specs.Loading.{KeepsSome, LoadsWell, after_load};
ghost use Rattle.ov_load.specs.declared.load_words.Load.{Load as Asked};

use crate::load_words::{Load, load_of};
use crate::summary::put_summary;
use crate::workload::answer_workload;
use ov_answering::{Status, begin, finish, put_last, stop_of};
use ov_disk::Disk;
use ov_io::{Sink, Source};
use ov_keyfile::{Masters, read_masters};
use ov_machine::Machine;
use ov_report::put_fault;
use std::alloc::Global;

// Answers the workload with a machine that has answered nothing yet.
fn load_machine<O: Sink, T: Sink, D: Disk>(
    alloc: Global,
    load: &Load,
    machine: &mut Machine<D>,
    out: &mut O,
    trace: &mut T,
) -> u8
    requires count { load.now.count ≤ MAX_WORKLOAD }
    requires healthy { machine.old.failed ≡ false }
    ensures ends { let k = machine.old.kept.masters in
        (h : PlainHistory) → StandsFor machine.old.kept h
        → LoadEndsAs D.tells k h load.now
        machine.old.disk machine.new.disk (O.tells.written out.old) (O.tells.written out.new)
        (T.tells.written trace.old) (T.tells.written trace.new) result
        (Holds D.tells k h h machine.old.disk) }
    ensures causes { EndsFor D.tells machine.old.disk machine.new.disk result
        ⊥ (Rose (O.tells.faults out.old) (O.tells.faults out.new)
        ⊎ Rose (T.tells.faults trace.old) (T.tells.faults trace.new))
        (SaysTag (O.tells.written out.old) (O.tells.written out.new)
        × ((h : PlainHistory) → StandsFor machine.old.kept h → ⊥)) }
    ensures status { IsScriptStatus result × IsOfNoScript result }
{
    match answer_workload(alloc, load, machine, trace) {
        Ok(tally) => put_summary(alloc, load, tally, machine.epoch(), out),
        Err(fault) => finish(alloc, stop_of(fault), machine.epoch(), out),
    }
}

// Opens the disk under these masters and answers the workload. The disk is given back.
fn load_over<O: Sink, T: Sink, D: Disk + Drop>(
    alloc: Global,
    load: &Load,
    masters: Masters,
    disk: D,
    out: &mut O,
    trace: &mut T,
) -> (u8, D)
    requires count { load.now.count ≤ MAX_WORKLOAD }
    ensures ends { let k = plain_masters masters in
        (h : PlainHistory) → OpensAs D.tells k load.now.mode h disk
        → LoadEndsAs D.tells k h load.now disk result.1
        (O.tells.written out.old) (O.tells.written out.new)
        (T.tells.written trace.old) (T.tells.written trace.new) result.0 (Unit {0}) }
    ensures image { let k = plain_masters masters in
        Told (D.tells.reads disk) (λ i. JudgesImage k load.now.mode i result.0
        (O.tells.written out.old) (O.tells.written out.new) (trace.new ≡ trace.old)
        (LeavesAsAtStart D.tells disk result.1)) }
    ensures causes { EndsFor D.tells disk result.1 result.0
        ⊥ (Rose (O.tells.faults out.old) (O.tells.faults out.new)
        ⊎ Rose (T.tells.faults trace.old) (T.tells.faults trace.new))
        (SaysTag (O.tells.written out.old) (O.tells.written out.new)
        × TellsNothing (D.tells.reads disk)) }
    ensures status { IsStoreStatus result.0 × IsOfNoScript result.0 }
{
    match begin(alloc, disk, masters, load.mode) {
        Ok(store) => {
            let mut machine = Machine::of(masters, store);
            let code = load_machine(alloc, load, &mut machine, out, trace);
            (code, machine.into_disk())
        }
        Err(refused) => (put_fault(alloc, out, refused.fault), refused.disk),
    }
}

// Reads the key file, opens the disk and answers the workload, once the words are known.
fn load_with_keys<K: Source, O: Sink, T: Sink, D: Disk + Drop>(
    alloc: Global,
    load: &Load,
    keys: &mut K,
    disk: D,
    out: &mut O,
    trace: &mut T,
) -> (u8, D)
    requires count { load.now.count ≤ MAX_WORKLOAD }
    ensures ends { IfSome (K.tells.left keys.old) (λ file. (k : PlainMasters) (h : PlainHistory)
        → AreMasters file k → OpensAs D.tells k load.now.mode h disk
        → LoadEndsAs D.tells k h load.now disk result.1
        (O.tells.written out.old) (O.tells.written out.new)
        (T.tells.written trace.old) (T.tells.written trace.new) result.0 (Unit {0})) }
    ensures image { IfSome (K.tells.left keys.old) (λ file. (k : PlainMasters) → AreMasters file k
        → Told (D.tells.reads disk) (λ i. JudgesImage k load.now.mode i result.0
        (O.tells.written out.old) (O.tells.written out.new) (trace.new ≡ trace.old)
        (LeavesAsAtStart D.tells disk result.1))) }
    ensures keys { JudgesKeys (Unit {0}) (K.tells.left keys.old) result.0
        (O.tells.written out.old) (O.tells.written out.new)
        ((trace.new ≡ trace.old) × (result.1 ≡ disk)) }
    ensures causes { EndsFor D.tells disk result.1 result.0
        (Rose (K.tells.faults keys.old) (K.tells.faults keys.new))
        (Rose (O.tells.faults out.old) (O.tells.faults out.new)
        ⊎ Rose (T.tells.faults trace.old) (T.tells.faults trace.new))
        (SaysTag (O.tells.written out.old) (O.tells.written out.new)
        × TellsNothing (D.tells.reads disk)) }
    ensures status { IsKeysStatus result.0 × IsOfNoScript result.0 }
{
    match read_masters(keys) {
        Ok(Some(masters)) => load_over(alloc, load, masters, disk, out, trace),
        Ok(None) => (put_last(out, b"error keys\n", Status::BadKeys), disk),
        Err(_) => (put_last(out, b"error read\n", Status::ReadFault), disk),
    }
}

/// Answers the commands of a stated workload under the masters of the key file, over the store on
/// `disk`, prints seven lines in place of the replies, and gives the exit status. Where no store
/// was begun there it begins one. Each frame between the parties is put to `trace`, as a script of
/// the same commands has them put.
///
/// * `opened`: with a disk that opens, the lines tell of the access-matrix machine's replies to
///   just these commands, from the history for which the disk stands: their counts, the epoch and
///   the hash of all their lines; or an error line is the only one. The status
///   is 0 unless a fault came or memory was refused. Put to `trace` is each command's transcript in turn, then that of the end. At
///   any moment a stop leaves the history after some first commands; at the exit it is that after
///   commands whose transcripts were put, or after the one more of which a front was put, and just
///   that one where the front is all of it; at status 0 the disk has it all, and what its image
///   publishes is the matrix.
/// * `image`: a disk that doesn't open for these masters and this mode is refused, and nothing is
///   sent or written.
/// * `keys`: without a key file the disk is left as it is, and nothing is sent.
/// * `words`: other words are refused, and all files are left as they are.
/// * `causes`: a fault is answered only where its count of faults rose, and a wrong tag only with
///   its line, and never where the disk tells its bytes.
///
/// That the four counts add up to the commands is a law of them,
/// [`crate::the_counts_add_up_to_the_commands`].
///
/// The clauses on what is printed, on the key file and the disk hold where the source, the sink and
/// the disk tell their bytes; those on the counts of faults hold always.
pub fn load<K: Source, O: Sink, T: Sink, D: Disk>(
    alloc: Global,
    words: &[String],
    keys: &mut K,
    out: &mut O,
    trace: &mut T,
    disk: &mut D,
) -> u8
    ensures opened { ForLoad D.tells disk.old words.now (K.tells.left keys.old) (λ k h load.
        LoadsWell (EndsLoad load h (O.tells.written out.old) (O.tells.written out.new) result)
        (IsComplete result (Rose (K.tells.faults keys.old) (K.tells.faults keys.new))
        (Rose (O.tells.faults out.old) (O.tells.faults out.new)
        ⊎ Rose (T.tells.faults trace.old) (T.tells.faults trace.new))
        (Rose (D.tells.faults disk.old) (D.tells.faults disk.new)))
        (LoadTracesAs D.tells k h load disk.new
        (T.tells.written trace.old) (T.tells.written trace.new) result (Unit {0}))
        (LeavesOnly D.tells disk.old disk.new (KeepsSome k h load))
        (result ≡ 0 → LastsAs D.tells k h (after_load h load) disk.new)) }
    ensures image { ForLoadImage (D.tells.reads disk.old) words.now (K.tells.left keys.old)
        (λ k mode i. JudgesImage k mode i result
        (O.tells.written out.old) (O.tells.written out.new) (trace.new ≡ trace.old) (LeavesAsAtStart D.tells disk.old disk.new)) }
    ensures keys { JudgesKeys ((load : Asked) × IsLoad load words.now)
        (K.tells.left keys.old) result (O.tells.written out.old) (O.tells.written out.new)
        ((trace.new ≡ trace.old) × (disk.new ≡ disk.old)) }
    ensures words { RefusesWords (AreNoLoad words.now) result
        (O.tells.written out.old) (O.tells.written out.new)
        ((keys.new ≡ keys.old) × (trace.new ≡ trace.old) × (disk.new ≡ disk.old)) }
    ensures causes { FailsForFaults result
        (Rose (D.tells.faults disk.old) (D.tells.faults disk.new))
        (Rose (K.tells.faults keys.old) (K.tells.faults keys.new))
        (Rose (O.tells.faults out.old) (O.tells.faults out.new)
        ⊎ Rose (T.tells.faults trace.old) (T.tells.faults trace.new))
        (SaysTag (O.tells.written out.old) (O.tells.written out.new)
        × TellsNothing (D.tells.reads disk.old)) }
    ensures no_script { IsOfNoScript result }
{
    match load_of(words) {
        Some(load) => load_with_keys(alloc, &load, keys, disk, out, trace).0,
        None => put_last(out, b"error usage\n", Status::Usage),
    }
}
