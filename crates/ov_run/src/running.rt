//! The top call.
ghost use Rattle.std.specs.Prelude.{◌≡◌, ◌≢◌, ◌⊎◌, ◌≤◌, false, IfNone, IfSome};
ghost use Rattle.ov_base.specs.Causes.{Rose};
ghost use Rattle.ov_base.specs.declared.mode.Mode.{Mode};
ghost use Rattle.ov_disk.specs.Disk.{Told};
ghost use Rattle.ov_history.specs.Masters.{Masters as PlainMasters};
ghost use Rattle.ov_history.specs.Plain.{PlainHistory};
ghost use Rattle.ov_machine.specs.Disks.{Holds, TellsNothing};
ghost use Rattle.ov_machine.specs.Machine.{AreMasters, StandsFor, plain_masters};
ghost use Rattle.ov_answering.specs.Answered.{AnswersText};
ghost use Rattle.ov_answering.specs.Answering.{SaysTag};
ghost use Rattle.ov_answering.specs.ByScript.{EndsByScript};
ghost use Rattle.ov_answering.specs.Ending.{EndsFor, FailsForFaults, JudgesImage, JudgesKeys};
ghost use Rattle.ov_answering.specs.Ending.{LeavesAsAtStart, RefusesWords};
ghost use Rattle.ov_answering.specs.Lasting.{Endures, OpensAs};
ghost use Rattle.ov_answering.specs.Pacing.{IsPaced};
ghost use Rattle.ov_answering.specs.Printing.{IsKeysStatus, IsScriptStatus, IsStoreStatus};
ghost use Rattle.ov_answering.specs.Tracing.{TracesAs};
ghost use Rattle.ov_run.specs.Counts.{OneRose};
ghost use Rattle.ov_run.specs.Running.{ForImage, FromEach, IsDecided, PrintsAs, RunsWell};
ghost use Rattle.ov_run.specs.Words.{AreOther, IsRun};

use ov_answering::{Status, answer_all, begin, finish, mode_of_word, put_last};
use ov_base::{Memory, Mode};
use ov_disk::Disk;
use ov_io::{Sink, Source};
use ov_keyfile::{Masters, read_masters};
use ov_machine::Machine;
use ov_report::{put_fault, put_memory};
use ov_script::{Buffer, Script};
use std::alloc::Global;

// The mode in which these words ask for a run.
fn mode_of(words: &[String]) -> Option<Mode>
    ensures found { IfSome result (λ mode. IsRun mode words.now) }
    ensures none { IfNone result (AreOther words.now) }
{
    match words {
        [run, mode] if run.as_str() == "run" => mode_of_word(mode.as_str()),
        _ => None,
    }
}

// Answers the script with a machine that has answered nothing yet.
fn answer_script<I: Source, O: Sink, T: Sink, D: Disk>(
    alloc: Global,
    machine: &mut Machine<D>,
    input: &mut I,
    out: &mut O,
    trace: &mut T,
) -> u8
    requires healthy { machine.old.failed ≡ false }
    ensures text { let k = machine.old.kept.masters in
        (p : PlainHistory) → StandsFor machine.old.kept p → IfSome (I.tells.left input.old) (λ text.
        AnswersText D.tells I.tells k p text result
        machine.old.disk machine.new.disk input.old input.new
        (O.tells.written out.old) (O.tells.written out.new)
        (T.tells.written trace.old) (T.tells.written trace.new)
        (Holds D.tells k p p machine.old.disk)) }
    ensures script { IfSome (I.tells.left input.old) (λ text.
        EndsByScript text result (O.tells.written out.old) (O.tells.written out.new)) }
    ensures causes { EndsFor D.tells machine.old.disk machine.new.disk result
        (Rose (I.tells.faults input.old) (I.tells.faults input.new))
        (Rose (O.tells.faults out.old) (O.tells.faults out.new)
        ⊎ Rose (T.tells.faults trace.old) (T.tells.faults trace.new))
        (SaysTag (O.tells.written out.old) (O.tells.written out.new)
        × ((p : PlainHistory) → StandsFor machine.old.kept p → ⊥)) }
    ensures status { IsScriptStatus result }
{
    // The buffer is there before the input is lent, so that without one the input is as it was.
    let buffer = match Buffer::new(alloc) {
        Ok(buffer) => buffer,
        Err(Memory) => return put_memory(out),
    };
    let mut script = Script::over(buffer, input);
    let stop = answer_all(alloc, &mut script, machine, out, trace);
    // The loan ends here, and what is known of the source goes back to `input`.
    let _ = script.into_source();
    finish(alloc, stop, machine.epoch(), out)
}

// Opens the disk under these masters and answers the script. The disk is given back.
fn answer_over<I: Source, O: Sink, T: Sink, D: Disk + Drop>(
    alloc: Global,
    mode: Mode,
    masters: Masters,
    disk: D,
    input: &mut I,
    out: &mut O,
    trace: &mut T,
) -> (u8, D)
    ensures text { let k = plain_masters masters in
        (p : PlainHistory) → OpensAs D.tells k mode p disk
        → IfSome (I.tells.left input.old) (λ text. AnswersText D.tells I.tells k p text result.0
        disk result.1 input.old input.new (O.tells.written out.old) (O.tells.written out.new)
        (T.tells.written trace.old) (T.tells.written trace.new) (Unit {0})) }
    ensures script { IfSome (I.tells.left input.old) (λ text.
        EndsByScript text result.0 (O.tells.written out.old) (O.tells.written out.new)) }
    ensures image { let k = plain_masters masters in
        Told (D.tells.reads disk) (λ i. JudgesImage k mode i result.0
        (O.tells.written out.old) (O.tells.written out.new)
        ((input.new ≡ input.old) × (trace.new ≡ trace.old))
        (LeavesAsAtStart D.tells disk result.1)) }
    ensures causes { EndsFor D.tells disk result.1 result.0
        (Rose (I.tells.faults input.old) (I.tells.faults input.new))
        (Rose (O.tells.faults out.old) (O.tells.faults out.new)
        ⊎ Rose (T.tells.faults trace.old) (T.tells.faults trace.new))
        (SaysTag (O.tells.written out.old) (O.tells.written out.new)
        × TellsNothing (D.tells.reads disk)) }
    ensures status { IsStoreStatus result.0 }
{
    match begin(alloc, disk, masters, mode) {
        Ok(store) => {
            let mut machine = Machine::of(masters, store);
            let code = answer_script(alloc, &mut machine, input, out, trace);
            (code, machine.into_disk())
        }
        Err(refused) => (put_fault(alloc, out, refused.fault), refused.disk),
    }
}

// Reads the key file, opens the disk and answers the script, once the words are known.
fn answer_with_keys<K: Source, I: Source, O: Sink, T: Sink, D: Disk + Drop>(
    alloc: Global,
    mode: Mode,
    keys: &mut K,
    disk: D,
    input: &mut I,
    out: &mut O,
    trace: &mut T,
) -> (u8, D)
    ensures text { IfSome (K.tells.left keys.old) (λ file. IfSome (I.tells.left input.old) (λ text.
        (k : PlainMasters) (p : PlainHistory) → AreMasters file k
        → OpensAs D.tells k mode p disk
        → AnswersText D.tells I.tells k p text result.0
        disk result.1 input.old input.new (O.tells.written out.old) (O.tells.written out.new)
        (T.tells.written trace.old) (T.tells.written trace.new) (Unit {0}))) }
    ensures script { IfSome (I.tells.left input.old) (λ text.
        EndsByScript text result.0 (O.tells.written out.old) (O.tells.written out.new)) }
    ensures image { IfSome (K.tells.left keys.old) (λ file. (k : PlainMasters) → AreMasters file k
        → Told (D.tells.reads disk) (λ i. JudgesImage k mode i result.0
        (O.tells.written out.old) (O.tells.written out.new)
        ((input.new ≡ input.old) × (trace.new ≡ trace.old))
        (LeavesAsAtStart D.tells disk result.1))) }
    ensures keys { JudgesKeys (Unit {0}) (K.tells.left keys.old) result.0
        (O.tells.written out.old) (O.tells.written out.new)
        ((input.new ≡ input.old) × (trace.new ≡ trace.old) × (result.1 ≡ disk)) }
    ensures causes { EndsFor D.tells disk result.1 result.0
        (Rose (K.tells.faults keys.old) (K.tells.faults keys.new)
        ⊎ Rose (I.tells.faults input.old) (I.tells.faults input.new))
        (Rose (O.tells.faults out.old) (O.tells.faults out.new)
        ⊎ Rose (T.tells.faults trace.old) (T.tells.faults trace.new))
        (SaysTag (O.tells.written out.old) (O.tells.written out.new)
        × TellsNothing (D.tells.reads disk)) }
    ensures status { IsKeysStatus result.0 }
{
    match read_masters(keys) {
        Ok(Some(masters)) => answer_over(alloc, mode, masters, disk, input, out, trace),
        Ok(None) => (put_last(out, b"error keys\n", Status::BadKeys), disk),
        Err(_) => (put_last(out, b"error read\n", Status::ReadFault), disk),
    }
}

/// Answers the script of `input` on `out` under the masters of the key file, over the store on
/// `disk`, and gives the exit status. Where no store was begun there it begins one. Owner, readers
/// and server are parties of their own, and each frame between them is put to `trace`.
///
/// * `opened`: with a disk that opens, the access-matrix machine's lines are printed, from the
///   history for which the disk stands; the script alone decides the status; a reply is put before
///   more of the script is taken than its command needs; put to `trace` is each command's
///   transcript in turn, then that of the end, and nothing else; and whatever the status, a stop
///   leaves what was acknowledged, and at most one update more: at the end of the script the disk
///   has it all, and what its image publishes is the matrix.
/// * `image`: a disk that doesn't open for these masters and this mode is refused, the script isn't
///   read, and nothing is sent or written.
/// * `keys`: without a key file the script and the disk are left as they are, and nothing is sent.
/// * `script`: also over a disk that tells nothing, as one of real files, the script is read as the
///   grammar says. A run ends well only at the script's end, in `error line N` only where a bad item
///   stands on line N, and in `error long` only at the limit. Each command before has had one reply
///   line. A wrong tag is said of a file only for a read of it behind those commands, which has had
///   none.
/// * `words`: other words are refused, and all files are left as they are.
/// * `causes`: a fault is answered only where its count of faults rose, and a wrong tag only with
///   its line, and never where the disk tells its bytes.
///
/// A clause on the bytes of a source, the sink or the disk holds where that one tells them: `opened`
/// and `image` where the disk does too, and `script`, `keys` and `words` whatever the disk tells.
/// Standard input tells nothing. Clauses on the counts of faults hold always. Each update is on the
/// disk before its reply line is put, and each line is put by itself.
pub fn run<K: Source, I: Source, O: Sink, T: Sink, D: Disk>(
    alloc: Global,
    words: &[String],
    keys: &mut K,
    input: &mut I,
    out: &mut O,
    trace: &mut T,
    disk: &mut D,
) -> u8
    ensures opened { FromEach D.tells disk.old words.now
        (K.tells.left keys.old) (I.tells.left input.old) (λ k p text. RunsWell
        (PrintsAs p text result (O.tells.written out.old) (O.tells.written out.new))
        (IsDecided text result (Rose (K.tells.faults keys.old) (K.tells.faults keys.new))
        (Rose (I.tells.faults input.old) (I.tells.faults input.new))
        (OneRose (O.tells.faults out.old) (O.tells.faults out.new)
        (T.tells.faults trace.old) (T.tells.faults trace.new))
        (Rose (D.tells.faults disk.old) (D.tells.faults disk.new)))
        (IsPaced I.tells p input.old input.new (O.tells.written out.old) (O.tells.written out.new))
        (TracesAs k p text result (O.tells.written out.old) (O.tells.written out.new)
        (T.tells.written trace.old) (T.tells.written trace.new))
        (Endures D.tells k p text result disk.old disk.new
        (O.tells.written out.old) (O.tells.written out.new))) }
    ensures image { ForImage (D.tells.reads disk.old) words.now (K.tells.left keys.old) (λ k mode i.
        JudgesImage k mode i result (O.tells.written out.old) (O.tells.written out.new)
        ((input.new ≡ input.old) × (trace.new ≡ trace.old))
        (LeavesAsAtStart D.tells disk.old disk.new)) }
    ensures keys { JudgesKeys ((mode : Mode) × IsRun mode words.now) (K.tells.left keys.old) result
        (O.tells.written out.old) (O.tells.written out.new)
        ((input.new ≡ input.old) × (trace.new ≡ trace.old) × (disk.new ≡ disk.old)) }
    ensures script { IfSome (I.tells.left input.old) (λ text.
        EndsByScript text result (O.tells.written out.old) (O.tells.written out.new)) }
    ensures words { RefusesWords (AreOther words.now) result
        (O.tells.written out.old) (O.tells.written out.new)
        ((keys.new ≡ keys.old) × (input.new ≡ input.old) × (trace.new ≡ trace.old)
        × (disk.new ≡ disk.old)) }
    ensures causes { FailsForFaults result
        (Rose (D.tells.faults disk.old) (D.tells.faults disk.new))
        (OneRose (K.tells.faults keys.old) (K.tells.faults keys.new)
        (I.tells.faults input.old) (I.tells.faults input.new))
        (OneRose (O.tells.faults out.old) (O.tells.faults out.new)
        (T.tells.faults trace.old) (T.tells.faults trace.new))
        (SaysTag (O.tells.written out.old) (O.tells.written out.new)
        × TellsNothing (D.tells.reads disk.old)) }
{
    match mode_of(words) {
        Some(mode) => answer_with_keys(alloc, mode, keys, disk, input, out, trace).0,
        None => put_last(out, b"error usage\n", Status::Usage),
    }
}
