//! The top call of an audit.
ghost use Rattle.std.specs.Prelude.{◌≡◌, ◌⊎◌, IfSome};
ghost use Rattle.ov_answering.specs.Ending.{EndsFor, LeavesAsAtStart};
ghost use Rattle.ov_answering.specs.Printing.{IsRefused};
ghost use Rattle.ov_auditing.specs.AuditWords.{AreNoAudit, IsAudit};
ghost use Rattle.ov_auditing.specs.Exposed.{AreUsersOf};
ghost use Rattle.ov_auditing.specs.Promises.{AuditFails, ForAuditImage, ForEachKept, RefusesOther};
ghost use Rattle.ov_auditing.specs.Promises.{TellsOf};
ghost use Rattle.ov_auditing.specs.declared.audit_words.Asked.{Asked as AskedFor};
ghost use Rattle.ov_base.specs.Causes.{Rose};
ghost use Rattle.ov_disk.specs.Disk.{Told};
ghost use Rattle.ov_history.specs.FadingLaws.{IsRight};
ghost use Rattle.ov_history.specs.Masters.{Masters as PlainMasters};
ghost use Rattle.ov_history.specs.Plain.{PlainHistory};
ghost use Rattle.ov_history.specs.Sealed.{SealedHistory};
ghost use Rattle.ov_images.specs.Images.{Keeps, keys_of};
ghost use Rattle.ov_machine.specs.Machine.{AreMasters, plain_masters};
ghost use Rattle.ov_replaying.specs.KeyFiles.{JudgesKeyFile};
ghost use Rattle.ov_replaying.specs.Opening.{JudgesStore};
ghost use Rattle.ov_replaying.specs.Reading.{StaysAsItWas};
ghost use Rattle.ov_replaying.specs.Statuses.{IsAskedStatus, IsFoundStatus};
ghost use Rattle.ov_store.specs.Opened.{Serves};

use crate::audit_words::{Asked, audit_of};
use crate::listing::{put_findings, put_no_user};
use crate::naming::users_named;
use crate::replaying::findings_of;
use ov_answering::{Status, put_last};
use ov_base::Users;
use ov_disk::Disk;
use ov_io::{Sink, Source};
use ov_keyfile::{Masters, read_masters};
use ov_replaying::open;
use ov_report::{put_fault, put_memory};
use ov_store::Store;
use ov_tokens::Master;
use std::alloc::Global;

// Prints what these users can read, who are those that were asked for.
fn print_found<O: Sink, D: Disk>(
    alloc: Global,
    asked: &Asked,
    users: Users,
    masters: &Masters,
    store: &mut Store<D>,
    out: &mut O,
) -> u8
    requires keys { store.old.keys ≡ keys_of (plain_masters masters.now) }
    requires named { AreUsersOf store.old.catalogue.users asked.now.names users }
    ensures tells { (g : SealedHistory) → Serves D.tells g store.old
        → Told (D.tells.reads store.old.disk) (λ _. TellsOf asked.now (plain_masters masters.now) g
        result (O.tells.written out.old) (O.tells.written out.new)
        (Rose (O.tells.faults out.old) (O.tells.faults out.new)
        ⊎ Rose (D.tells.faults store.old.disk) (D.tells.faults store.new.disk))) }
    ensures opened { Told (D.tells.reads store.old.disk) (λ _. IsRefused result → ⊥) }
    ensures stays { StaysAsItWas D.tells store.old store.new (result ≡ 4) }
    ensures causes { EndsFor D.tells store.old.disk store.new.disk result ⊥
        (Rose (O.tells.faults out.old) (O.tells.faults out.new)) ⊥ }
    ensures status { IsFoundStatus result }
{
    let epoch = store.state().epoch();
    let surface = Master::new(&masters.surface);
    match findings_of(alloc, store, &surface, users, asked.server) {
        Ok(findings) => put_findings(alloc, &findings, epoch, out),
        Err(fault) => put_fault(alloc, out, fault),
    }
}

// Prints what the users can read, or that one of them isn't there.
fn audit_store<O: Sink, D: Disk>(
    alloc: Global,
    asked: &Asked,
    masters: &Masters,
    store: &mut Store<D>,
    out: &mut O,
) -> u8
    requires { store.old.keys ≡ keys_of (plain_masters masters.now) }
    ensures tells { (g : SealedHistory) → Serves D.tells g store.old
        → Told (D.tells.reads store.old.disk) (λ _. TellsOf asked.now (plain_masters masters.now) g
        result (O.tells.written out.old) (O.tells.written out.new)
        (Rose (O.tells.faults out.old) (O.tells.faults out.new)
        ⊎ Rose (D.tells.faults store.old.disk) (D.tells.faults store.new.disk))) }
    ensures opened { Told (D.tells.reads store.old.disk) (λ _. IsRefused result → ⊥) }
    ensures stays { StaysAsItWas D.tells store.old store.new (result ≡ 4) }
    ensures causes { EndsFor D.tells store.old.disk store.new.disk result ⊥
        (Rose (O.tells.faults out.old) (O.tells.faults out.new)) ⊥ }
    ensures status { IsFoundStatus result }
{
    match users_named(store.state(), asked.names.as_slice()) {
        Some(users) => print_found(alloc, asked, users, masters, store, out),
        None => {
            let epoch = store.state().epoch();
            put_no_user(alloc, epoch, out)
        }
    }
}

// Opens the disk under these masters and prints. The disk is given back.
fn audit_over<O: Sink, D: Disk + Drop>(
    alloc: Global,
    asked: &Asked,
    masters: Masters,
    disk: D,
    out: &mut O,
) -> (u8, D)
    ensures tells { let k = plain_masters masters in Told (D.tells.reads disk) (λ i.
        (p : PlainHistory) (g : SealedHistory) → IsRight k p g → Keeps (keys_of k) g i
        → TellsOf asked.now k g result.0 (O.tells.written out.old) (O.tells.written out.new)
        (Rose (O.tells.faults out.old) (O.tells.faults out.new)
        ⊎ Rose (D.tells.faults disk) (D.tells.faults result.1))) }
    ensures image { let k = plain_masters masters in Told (D.tells.reads disk) (λ i.
        JudgesStore k i result.0 (O.tells.written out.old) (O.tells.written out.new)) }
    ensures quiet { LeavesAsAtStart D.tells disk result.1 }
    ensures causes { EndsFor D.tells disk result.1 result.0 ⊥
        (Rose (O.tells.faults out.old) (O.tells.faults out.new)) ⊥ }
    ensures status { IsFoundStatus result.0 }
{
    match open(alloc, disk, &masters) {
        Ok(store) => {
            let mut store = store;
            let code = audit_store(alloc, asked, &masters, &mut store, out);
            (code, store.close())
        }
        Err(refused) => (put_fault(alloc, out, refused.fault), refused.disk),
    }
}

// Reads the key file, opens the disk and prints, once the words are known.
fn audit_with_keys<K: Source, O: Sink, D: Disk + Drop>(
    alloc: Global,
    asked: &Asked,
    keys: &mut K,
    disk: D,
    out: &mut O,
) -> (u8, D)
    ensures tells { IfSome (K.tells.left keys.old) (λ file. (k : PlainMasters) → AreMasters file k
        → Told (D.tells.reads disk) (λ i. (p : PlainHistory) (g : SealedHistory) → IsRight k p g
        → Keeps (keys_of k) g i
        → TellsOf asked.now k g result.0 (O.tells.written out.old) (O.tells.written out.new)
        (Rose (K.tells.faults keys.old) (K.tells.faults keys.new)
        ⊎ (Rose (O.tells.faults out.old) (O.tells.faults out.new)
        ⊎ Rose (D.tells.faults disk) (D.tells.faults result.1))))) }
    ensures image { IfSome (K.tells.left keys.old) (λ file. (k : PlainMasters) → AreMasters file k
        → Told (D.tells.reads disk) (λ i.
        JudgesStore k i result.0 (O.tells.written out.old) (O.tells.written out.new))) }
    ensures keys { JudgesKeyFile (Unit {0}) (K.tells.left keys.old) result.0
        (O.tells.written out.old) (O.tells.written out.new) (result.1 ≡ disk) }
    ensures quiet { LeavesAsAtStart D.tells disk result.1 }
    ensures causes { EndsFor D.tells disk result.1 result.0
        (Rose (K.tells.faults keys.old) (K.tells.faults keys.new))
        (Rose (O.tells.faults out.old) (O.tells.faults out.new)) ⊥ }
    ensures status { IsAskedStatus result.0 }
{
    match read_masters(keys) {
        Ok(Some(masters)) => audit_over(alloc, asked, masters, disk, out),
        Ok(None) => (put_last(out, b"error keys\n", Status::BadKeys), disk),
        Err(_) => (put_last(out, b"error read\n", Status::ReadFault), disk),
    }
}

/// Prints which files the users of these words could ever have read, had they kept everything, by
/// the updates of the store on `disk`, under the masters of the key file; and gives the exit status.
/// It begins no store, and calls nothing that writes to the disk.
///
/// * `tells`: over a disk that tells its bytes and opens for these masters, what is printed are
///   exactly the files that these users can read, and the server with them where the words say so,
///   each by its cause and since its epoch, in the order of their numbers; or that one of the users
///   isn't there; and then the end line. The status is 0 unless a fault came or memory was refused.
///   Else nothing but the line on refused memory, or on a call or a read that failed, is put.
/// * `image`: a disk that doesn't open for these masters is refused with the line that says why, and
///   so is one on which no store was begun.
/// * `keys`: without a key file the disk is left as it is.
/// * `words`: other words are refused, and all files are left as they are.
/// * `quiet`: a crash at any moment leaves what it might have left at the start.
/// * `causes`: the status is one of an audit's, and a fault is answered only where its count of faults
///   rose.
///
/// The clauses on what is printed, on the key file and the disk hold where the source, the sink and
/// the disk tell their bytes; `quiet` and `causes` hold always. Over a disk that tells nothing a
/// record that reads by now as no update, or as one that isn't taken, is refused as damaged, at the
/// place of its gate: no clause says so.
pub fn audit<K: Source, O: Sink, D: Disk>(
    alloc: Global,
    words: &[String],
    keys: &mut K,
    out: &mut O,
    disk: &mut D,
) -> u8
    ensures tells { ForEachKept (D.tells.reads disk.old) words.now (K.tells.left keys.old)
        (λ asked k g. TellsOf asked k g result
        (O.tells.written out.old) (O.tells.written out.new)
        (Rose (K.tells.faults keys.old) (K.tells.faults keys.new)
        ⊎ (Rose (O.tells.faults out.old) (O.tells.faults out.new)
        ⊎ Rose (D.tells.faults disk.old) (D.tells.faults disk.new)))) }
    ensures image { ForAuditImage (D.tells.reads disk.old) words.now (K.tells.left keys.old)
        (λ k i. JudgesStore k i result (O.tells.written out.old) (O.tells.written out.new)) }
    ensures keys { JudgesKeyFile ((asked : AskedFor) × IsAudit asked words.now)
        (K.tells.left keys.old) result (O.tells.written out.old) (O.tells.written out.new)
        (disk.new ≡ disk.old) }
    ensures words { RefusesOther (AreNoAudit words.now) result
        (O.tells.written out.old) (O.tells.written out.new)
        ((keys.new ≡ keys.old) × (disk.new ≡ disk.old)) }
    ensures quiet { LeavesAsAtStart D.tells disk.old disk.new }
    ensures causes { AuditFails result
        (Rose (D.tells.faults disk.old) (D.tells.faults disk.new))
        (Rose (K.tells.faults keys.old) (K.tells.faults keys.new))
        (Rose (O.tells.faults out.old) (O.tells.faults out.new)) }
{
    match audit_of(alloc, words) {
        Ok(Some(asked)) => audit_with_keys(alloc, &asked, keys, disk, out).0,
        Ok(None) => put_last(out, b"error usage\n", Status::Usage),
        Err(_) => put_memory(out),
    }
}
