//! The new store: begun on its disk, and the updates that are kept.
ghost use Rattle.std.specs.Prelude.{◌≡◌, ◌≤◌, ◌⊎◌, false, length};
ghost use Rattle.ov_answering.specs.Printing.{IsRefused};
ghost use Rattle.ov_base.specs.Causes.{Rose};
ghost use Rattle.ov_disk.specs.Disk.{StaysTold, Told};
ghost use Rattle.ov_images.specs.Images.{keys_of};
ghost use Rattle.ov_machine.specs.Machine.{plain_masters};
ghost use Rattle.ov_replaying.specs.Reading.{StaysAsItWas};
ghost use Rattle.ov_replaying.specs.Statuses.{IsFoundStatus};
ghost use Rattle.ov_report.specs.Ends.{EndsOr, IsPutTo};
ghost use Rattle.ov_store.specs.Updating.{IsCallOf};
ghost use Rattle.ov_tidy.specs.Copies.{BeginsFor, ForEachThinned, KeepsStep, LeavesCopy};
ghost use Rattle.ov_tidying.specs.Promises.{EndsOnBoth};
ghost use Rattle.ov_tidying.specs.Writing.{CopyEnds, EndsCopied, HasThinned, MakesCopy, begin_line};
ghost use Rattle.ov_tidying.specs.Writing.{begin_status, fault_for};

use crate::listing::put_tidied;
use ov_answering::{Status, base_check_of, put_last};
use ov_disk::Disk;
use ov_io::Sink;
use ov_keyfile::Masters;
use ov_replaying::damaged;
use ov_report::put_fault;
use ov_store::{BeginFault, Store};
use ov_tidy::{CopyFault, copy};
use std::alloc::Global;

// Why not all was copied, as what is said of a store that isn't opened.
fn fault_of(fault: CopyFault) -> BeginFault
    ensures { result ≡ fault_for fault }
{
    match fault {
        CopyFault::Disk => BeginFault::Disk,
        CopyFault::Changed { offset } => damaged(offset),
        CopyFault::Memory => BeginFault::Memory,
    }
}

// Puts the line on a new store that isn't begun. Its disk isn't unborn, unless a call of it failed or
// memory was refused.
fn put_not_begun<O: Sink>(alloc: Global, fault: BeginFault, out: &mut O) -> u8
    ensures ends { EndsOr (begin_line fault) (begin_status fault)
        (O.tells.written out.old) (O.tells.written out.new) result }
    ensures put { IsPutTo O.tells out.old out.new result }
{
    match fault {
        BeginFault::Disk => put_fault(alloc, out, BeginFault::Disk),
        BeginFault::Memory => put_fault(alloc, out, BeginFault::Memory),
        _ => put_last(out, b"error notempty\n", Status::NotEmpty),
    }
}

// Copies the updates of these places to the new store, which has none yet, and prints.
fn copy_all<O: Sink, D: Disk, E: Disk>(
    alloc: Global,
    old: &mut Store<D>,
    new: &mut Store<E>,
    kept: &[u32],
    out: &mut O,
) -> u8
    requires keys { new.old.keys ≡ old.old.keys }
    requires whole { new.old.failed ≡ false }
    requires begins { BeginsFor D.tells E.tells old.old kept.now new.old }
    requires thinned { HasThinned D.tells old.old kept.now }
    ensures copied { ForEachThinned D.tells old.old kept.now (λ g. EndsCopied E.tells g kept.now
        result (O.tells.written out.old) (O.tells.written out.new) new.new) }
    ensures any_moment { LeavesCopy D.tells E.tells old.old kept.now new.old new.new }
    ensures step { result ≡ 0 → KeepsStep E.tells new.old new.new }
    ensures opened { Told (D.tells.reads old.old.disk) (λ _. IsRefused result → ⊥) }
    ensures stays { StaysAsItWas D.tells old.old old.new ⊥ }
    ensures told { StaysTold (E.tells.reads new.old.disk) (E.tells.reads new.new.disk) }
    ensures call { IsCallOf E.tells new.old new.new ⊥ }
    ensures causes { CopyEnds result
        (Rose (D.tells.faults old.old.disk) (D.tells.faults old.new.disk)
        ⊎ Rose (E.tells.faults new.old.disk) (E.tells.faults new.new.disk))
        (Rose (O.tells.faults out.old) (O.tells.faults out.new)) }
{
    match copy(alloc, old, new, kept) {
        Ok(()) => put_tidied(alloc, old.updates(), kept.len(), old.state().epoch(), out),
        Err(fault) => put_fault(alloc, out, fault_of(fault)),
    }
}

/// Begins the new store on its disk, copies the updates of these places to it, and prints. The disk is
/// given back.
pub fn write_store<O: Sink, D: Disk, E: Disk + Drop>(
    alloc: Global,
    masters: &Masters,
    old: &mut Store<D>,
    kept: &[u32],
    new: E,
    out: &mut O,
) -> (u8, E)
    requires keys { old.old.keys ≡ keys_of (plain_masters masters.now) }
    requires few { length kept.now ≤ old.old.catalogue.epoch }
    requires thinned { HasThinned D.tells old.old kept.now }
    ensures made { ForEachThinned D.tells old.old kept.now (λ g. Told (E.tells.reads new) (λ _.
        MakesCopy E.tells old.old.keys g result.0
        (O.tells.written out.old) (O.tells.written out.new) new result.1
        (Rose (O.tells.faults out.old) (O.tells.faults out.new)
        ⊎ (Rose (D.tells.faults old.old.disk) (D.tells.faults old.new.disk)
        ⊎ Rose (E.tells.faults new) (E.tells.faults result.1))))) }
    ensures opened { Told (D.tells.reads old.old.disk) (λ _. IsRefused result.0 → ⊥) }
    ensures stays { StaysAsItWas D.tells old.old old.new ⊥ }
    ensures causes { EndsOnBoth D.tells E.tells old.old.disk old.new.disk new result.1 result.0 ⊥
        (Rose (O.tells.faults out.old) (O.tells.faults out.new)) }
    ensures status { (result.0 ≡ 14) ⊎ IsFoundStatus result.0 }
{
    let base_check = base_check_of(&masters.base);
    let mode = old.state().mode();
    let first = old.state().epoch() - kept.len() as u32;
    match Store::begin_at(alloc, new, masters.surface, base_check, mode, first) {
        Ok(store) => {
            let mut store = store;
            let code = copy_all(alloc, old, &mut store, kept, out);
            (code, store.close())
        }
        Err(refused) => (put_not_begun(alloc, refused.fault, out), refused.disk),
    }
}
