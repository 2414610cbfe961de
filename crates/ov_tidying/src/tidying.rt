//! The top call that makes a shorter store.
ghost use Rattle.std.specs.Prelude.{◌≡◌, ◌⊎◌, false, true};
ghost use Rattle.ov_answering.specs.Ending.{LeavesAsAtStart, RefusesWords};
ghost use Rattle.ov_answering.specs.Printing.{IsRefused};
ghost use Rattle.ov_base.specs.Causes.{Rose};
ghost use Rattle.ov_disk.specs.Disk.{Told};
ghost use Rattle.ov_images.specs.Images.{keys_of};
ghost use Rattle.ov_journal.specs.Standing.{IsUnborn};
ghost use Rattle.ov_machine.specs.Machine.{plain_masters};
ghost use Rattle.ov_replaying.specs.KeyFiles.{JudgesKeyFile};
ghost use Rattle.ov_replaying.specs.Reading.{StaysAsItWas};
ghost use Rattle.ov_replaying.specs.Statuses.{IsAskedStatus, IsFoundStatus};
ghost use Rattle.ov_store.specs.Beginning.{WritesNoBorn};
ghost use Rattle.ov_tidying.specs.Promises.{EndsOnBoth, ForEachRight, ForImage, ForOldImage};
ghost use Rattle.ov_tidying.specs.Promises.{IsNoTidy, IsTidy, JudgesOld, Tidies, TidyFails};
ghost use Rattle.ov_tidying.specs.Writing.{ForEachOld, MakesCopy};

use crate::thinned::kept_of;
use crate::written::write_store;
use ov_answering::{Status, put_last};
use ov_disk::Disk;
use ov_io::{Sink, Source};
use ov_keyfile::{Masters, read_masters};
use ov_replaying::open;
use ov_report::put_fault;
use ov_store::Store;
use ov_tokens::Master;
use std::alloc::Global;

// Whether these words ask for a shorter store.
fn is_tidy(words: &[String]) -> bool
    ensures yes { result ≡ true → IsTidy words.now }
    ensures no { result ≡ false → IsNoTidy words.now }
{
    match words {
        [word] => word.as_str() == "tidy",
        _ => false,
    }
}

// Writes the shorter store of an open one, and prints. The new disk is given back.
fn tidy_store<O: Sink, D: Disk, E: Disk + Drop>(
    alloc: Global,
    masters: &Masters,
    old: &mut Store<D>,
    new: E,
    out: &mut O,
) -> (u8, E)
    requires { old.old.keys ≡ keys_of (plain_masters masters.now) }
    ensures made { ForEachOld D.tells E.tells old.old new (λ g. MakesCopy E.tells old.old.keys g
        result.0 (O.tells.written out.old) (O.tells.written out.new) new result.1
        (Rose (O.tells.faults out.old) (O.tells.faults out.new)
        ⊎ (Rose (D.tells.faults old.old.disk) (D.tells.faults old.new.disk)
        ⊎ Rose (E.tells.faults new) (E.tells.faults result.1)))) }
    ensures opened { Told (D.tells.reads old.old.disk) (λ _. IsRefused result.0 → ⊥) }
    ensures stays { StaysAsItWas D.tells old.old old.new ⊥ }
    ensures causes { EndsOnBoth D.tells E.tells old.old.disk old.new.disk new result.1 result.0 ⊥
        (Rose (O.tells.faults out.old) (O.tells.faults out.new)) }
    ensures status { (result.0 ≡ 14) ⊎ IsFoundStatus result.0 }
{
    old.known();
    let surface = Master::new(&masters.surface);
    match kept_of(alloc, old, &surface) {
        Ok(kept) => write_store(alloc, masters, old, &kept, new, out),
        Err(fault) => (put_fault(alloc, out, fault), new),
    }
}

// Opens the old disk under these masters and writes its shorter store. The disks are given back.
fn tidy_over<O: Sink, D: Disk + Drop, E: Disk + Drop>(
    alloc: Global,
    masters: Masters,
    old: D,
    new: E,
    out: &mut O,
) -> (u8, D, E)
    ensures tells { let k = plain_masters masters in Told (D.tells.reads old) (λ i.
        Told (E.tells.reads new) (λ _. ForEachRight k i (λ p g. Tidies E.tells k p g result.0
        (O.tells.written out.old) (O.tells.written out.new) new result.2
        (Rose (O.tells.faults out.old) (O.tells.faults out.new)
        ⊎ (Rose (D.tells.faults old) (D.tells.faults result.1)
        ⊎ Rose (E.tells.faults new) (E.tells.faults result.2)))))) }
    ensures image { let k = plain_masters masters in Told (D.tells.reads old) (λ i.
        JudgesOld k i result.0 (O.tells.written out.old) (O.tells.written out.new)
        (result.2 ≡ new)) }
    ensures quiet { LeavesAsAtStart D.tells old result.1 }
    ensures causes { EndsOnBoth D.tells E.tells old result.1 new result.2 result.0 ⊥
        (Rose (O.tells.faults out.old) (O.tells.faults out.new)) }
    ensures status { (result.0 ≡ 14) ⊎ IsFoundStatus result.0 }
{
    match open(alloc, old, &masters) {
        Ok(store) => {
            let mut store = store;
            let (code, new) = tidy_store(alloc, &masters, &mut store, new, out);
            (code, store.close(), new)
        }
        Err(refused) => (put_fault(alloc, out, refused.fault), refused.disk, new),
    }
}

// Reads the key file and writes the shorter store, once the words are known.
fn tidy_with_keys<K: Source, O: Sink, D: Disk + Drop, E: Disk + Drop>(
    alloc: Global,
    keys: &mut K,
    old: D,
    new: E,
    out: &mut O,
) -> (u8, D, E)
    ensures tells { ForOldImage (D.tells.reads old) (E.tells.reads new) (Unit {0})
        (K.tells.left keys.old) (λ k i. ForEachRight k i (λ p g. Tidies E.tells k p g result.0
        (O.tells.written out.old) (O.tells.written out.new) new result.2
        (Rose (K.tells.faults keys.old) (K.tells.faults keys.new)
        ⊎ (Rose (O.tells.faults out.old) (O.tells.faults out.new)
        ⊎ (Rose (D.tells.faults old) (D.tells.faults result.1)
        ⊎ Rose (E.tells.faults new) (E.tells.faults result.2)))))) }
    ensures image { ForImage (D.tells.reads old) (Unit {0}) (K.tells.left keys.old) (λ k i.
        JudgesOld k i result.0 (O.tells.written out.old) (O.tells.written out.new)
        (result.2 ≡ new)) }
    ensures keys { JudgesKeyFile (Unit {0}) (K.tells.left keys.old) result.0
        (O.tells.written out.old) (O.tells.written out.new)
        ((result.1 ≡ old) × (result.2 ≡ new)) }
    ensures quiet { LeavesAsAtStart D.tells old result.1 }
    ensures causes { EndsOnBoth D.tells E.tells old result.1 new result.2 result.0
        (Rose (K.tells.faults keys.old) (K.tells.faults keys.new))
        (Rose (O.tells.faults out.old) (O.tells.faults out.new)) }
    ensures status { (result.0 ≡ 14) ⊎ IsAskedStatus result.0 }
{
    match read_masters(keys) {
        Ok(Some(masters)) => tidy_over(alloc, masters, old, new, out),
        Ok(None) => (put_last(out, b"error keys\n", Status::BadKeys), old, new),
        Err(_) => (put_last(out, b"error read\n", Status::ReadFault), old, new),
    }
}

/// Writes to the disk `new` a store with those updates of the store on `old` that don't undo each
/// other, under the masters of the key file, prints how many updates both have, and gives the exit
/// status. Nothing is written to the disk `old`.
///
/// * `tells`: over disks that tell their bytes, where the old one opens for these masters: the new disk
///   gets the shorter history of the old one's, which is right under the masters. On an unborn disk
///   with nothing pending a crash at any moment leaves no store, or some first updates of it, and at
///   status 0 it lasts there whole. The status is 0 on an unborn new disk and 14 on any other, unless a
///   fault came or memory was refused. A fault before the new store is begun leaves the new disk as it
///   was.
/// * `image`: an old disk that doesn't open for these masters is refused with the line that says why,
///   and the new disk is left as it is.
/// * `keys`: without a key file both disks are left as they are.
/// * `words`: other words than the one word `tidy` are refused, and all files are left as they are.
/// * `quiet`: a crash at any moment leaves of the old disk what it might have left at the start.
/// * `born`: a new disk that isn't unborn is left as it was.
/// * `causes`: the status is one of those that there are, and a fault is answered only where its count
///   of faults rose.
///
/// The clauses on what is printed, on the key file and the disks hold where the source, the sink and
/// the disks tell their bytes; `quiet` and `causes` hold always.
pub fn tidy<K: Source, O: Sink, D: Disk, E: Disk>(
    alloc: Global,
    words: &[String],
    keys: &mut K,
    out: &mut O,
    old: &mut D,
    new: &mut E,
) -> u8
    ensures tells { ForOldImage (D.tells.reads old.old) (E.tells.reads new.old)
        (IsTidy words.now) (K.tells.left keys.old) (λ k i. ForEachRight k i (λ p g.
        Tidies E.tells k p g result (O.tells.written out.old) (O.tells.written out.new)
        new.old new.new (Rose (K.tells.faults keys.old) (K.tells.faults keys.new)
        ⊎ (Rose (O.tells.faults out.old) (O.tells.faults out.new)
        ⊎ (Rose (D.tells.faults old.old) (D.tells.faults old.new)
        ⊎ Rose (E.tells.faults new.old) (E.tells.faults new.new)))))) }
    ensures image { ForImage (D.tells.reads old.old) (IsTidy words.now) (K.tells.left keys.old)
        (λ k i. JudgesOld k i result (O.tells.written out.old) (O.tells.written out.new)
        (new.new ≡ new.old)) }
    ensures keys { JudgesKeyFile (IsTidy words.now) (K.tells.left keys.old) result
        (O.tells.written out.old) (O.tells.written out.new)
        ((old.new ≡ old.old) × (new.new ≡ new.old)) }
    ensures words { RefusesWords (IsNoTidy words.now) result
        (O.tells.written out.old) (O.tells.written out.new)
        ((keys.new ≡ keys.old) × (old.new ≡ old.old) × (new.new ≡ new.old)) }
    ensures quiet { LeavesAsAtStart D.tells old.old old.new }
    ensures born { WritesNoBorn E.tells new.old new.new }
    ensures causes { TidyFails result
        (Rose (D.tells.faults old.old) (D.tells.faults old.new)
        ⊎ Rose (E.tells.faults new.old) (E.tells.faults new.new))
        (Rose (K.tells.faults keys.old) (K.tells.faults keys.new))
        (Rose (O.tells.faults out.old) (O.tells.faults out.new))
        (Told (E.tells.reads new.old) (λ i. IsUnborn i.book → ⊥)) }
{
    if is_tidy(words) {
        tidy_with_keys(alloc, keys, old, new, out).0
    } else {
        put_last(out, b"error usage\n", Status::Usage)
    }
}
